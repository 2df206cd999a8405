// Raw numbers of the sensor. They begin again at 0 after C (document 01, "The axis", rules 1 and 3).
ghost use Rattle.std.specs.Prelude.{◌≡◌, ◌≤◌, ◌<◌, ◌^◌, pos, ◌-ℤ◌};
ghost use Rattle.integer.specs.{◌modulo◌};
ghost use Rattle.encoder.specs.{checked, Sound};
ghost use Rattle.axis_shaft.specs.{oriented, difference, shorter, move_of, half_refusal, move_refusal, approach_from, gap, doubtful, refusal_in};

use encoder::effect::InForce;
use encoder::quantity::Steps;
use encoder::refusal::{Refusal, refuse};

// A raw number in the direction in force.
pub(crate) fn oriented(rules: InForce, raw: Steps) -> Steps
    requires { Sound rules × (raw.0 < rules.capacity.0) }
    ensures { (result.0 ≡ oriented rules raw.0) × (result.0 < rules.capacity.0) }
{
    if rules.reversed {
        // C - raw modulo C, without a division
        if raw.0 == 0 {
            return raw;
        }
        return Steps(rules.capacity.0 - raw.0);
    }
    raw
}

// The difference of two readings: (new - last) modulo C; counter-clockwise (last - new) modulo C.
fn difference(rules: InForce, last: Steps, raw: Steps) -> Steps
    requires { Sound rules × (last.0 < rules.capacity.0) × (raw.0 < rules.capacity.0) }
    ensures { (result.0 ≡ difference rules last.0 raw.0) × (result.0 < rules.capacity.0) }
{
    if rules.reversed {
        return apart(rules.capacity, raw, last);
    }
    apart(rules.capacity, last, raw)
}

// (to - from) modulo C.
fn apart(capacity: Steps, from: Steps, to: Steps) -> Steps
    requires { (from.0 < capacity.0) × (to.0 < capacity.0) }
    ensures { (result.0 ≡ (pos to.0 -ℤ pos from.0) modulo capacity.0) × (result.0 < capacity.0) }
{
    if from.0 <= to.0 {
        return Steps(to.0 - from.0);
    }
    Steps(to.0 + (capacity.0 - from.0))
}

// The shorter way: n steps ahead, or C - n steps back as a negative number.
fn shorter(n: Steps, capacity: Steps) -> i64
    requires { (n.0 < capacity.0) × (capacity.0 ≤ 2 ^ 31) }
    ensures { result ≡ shorter n.0 capacity.0 }
{
    if 2 * n.0 < capacity.0 {
        return n.0 as i64;
    }
    n.0 as i64 - capacity.0 as i64
}

// Refuses a difference of exactly C / 2.
fn check_half(n: Steps, capacity: Steps) -> Result<(), Refusal>
    requires { n.0 < 2 ^ 31 }
    ensures { result ≡ checked (half_refusal n.0 capacity.0) }
{
    refuse(2 * n.0 == capacity.0, Refusal::HalfRange)
}

// The move of a new reading.
pub(crate) fn approach(rules: InForce, last: Steps, raw: u32) -> Result<i64, Refusal>
    requires { Sound rules × (last.0 < rules.capacity.0) }
    ensures { result ≡ approach_from rules last.0 raw }
{
    let here = Steps(raw as u64);
    refuse(rules.capacity.0 <= here.0, Refusal::WrongTurn)?;
    let n = difference(rules, last, here);
    check_half(n, rules.capacity)?;
    Ok(shorter(n, rules.capacity))
}

// The move of an accepted reading.
pub(crate) fn move_to(rules: InForce, last: Steps, raw: u32) -> i64
    requires { Sound rules × (last.0 < rules.capacity.0) × (raw < rules.capacity.0) }
    ensures { result ≡ move_of rules last.0 raw }
{
    let n = difference(rules, last, Steps(raw as u64));
    shorter(n, rules.capacity)
}

// Refuses a new reading of C or above, or C / 2 from the last one.
fn check_move(rules: InForce, last: Steps, raw: u32) -> Result<(), Refusal>
    requires { Sound rules × (last.0 < rules.capacity.0) }
    ensures { result ≡ checked (move_refusal rules last.0 raw) }
{
    let here = Steps(raw as u64);
    refuse(rules.capacity.0 <= here.0, Refusal::WrongTurn)?;
    check_half(difference(rules, last, here), rules.capacity)
}

// How far apart two raw numbers are, whichever is larger.
fn gap(a: u32, b: u32) -> u32
    ensures { result ≡ gap a b }
{
    if a <= b { b - a } else { a - b }
}

// Some reading is C or above, or C / 2 from the one before. If none is, all are taken. There is no branch on a reading, so that the compiler looks at
// several of them at a time.
fn doubtful(capacity: u32, before: u32, raws: &[u32]) -> bool
    ensures { result ≡ doubtful capacity before raws.now }
{
    let half = capacity / 2;
    let mut last = before;
    let mut found = false;
    for raw in raws {
        found = found | (capacity <= *raw) | (gap(last, *raw) == half);
        last = *raw;
    }
    found
}

// Refuses a list of new readings by the first of them that is refused.
pub(crate) fn check_moves(rules: InForce, before: Steps, raws: &[u32]) -> Result<(), Refusal>
    requires { Sound rules × (before.0 < rules.capacity.0) }
    ensures { result ≡ checked (refusal_in rules before.0 raws.now) }
{
    if doubtful(rules.capacity.0 as u32, before.0 as u32, raws) {
        return check_each(rules, before, raws);
    }
    Ok(())
}

// The same, reading after reading.
fn check_each(rules: InForce, before: Steps, raws: &[u32]) -> Result<(), Refusal>
    requires { Sound rules × (before.0 < rules.capacity.0) }
    ensures { result ≡ checked (refusal_in rules before.0 raws.now) }
{
    let mut last = before;
    for raw in raws {
        check_move(rules, last, *raw)?;
        last = Steps(*raw as u64);
    }
    Ok(())
}
