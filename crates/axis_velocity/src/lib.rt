// How fast the shaft runs, from a new reading and the time since the last one (document 01, "Velocity").
#![tactic(auto)]

ghost use Rattle.std.specs.Prelude.{◌≡◌, ◌<◌, ◌≤◌, ◌^◌, nat_abs};
ghost use Rattle.integer.specs.{clamp};
ghost use Rattle.encoder.specs.{Sound};
ghost use Rattle.axis_velocity.specs.{factor_of, least, greatest, rate_of, velocity_at, moved_at};

use axis::Axis;
use axis_shaft::Shaft;
use encoder::effect::InForce;
use encoder::quantity::{Steps, Turns};
use encoder::refusal::{Refusal, refuse};
use sensor::raw_number;

// The shaft after a new reading, and the velocity of its move.
#[derive(Clone, Copy, PartialEq, Eq)]
pub struct MovedAt {
    pub shaft: Shaft,
    pub velocity: i32,
}

// The velocity at a new reading, elapsed milliseconds after the last. The axis is not moved.
pub fn velocity(axis: Axis, step: Steps, turn: Turns, elapsed: u16) -> Result<i32, Refusal>
    ensures { result ≡ velocity_at axis step.0 turn.0 elapsed }
{
    let rules = axis.rules()?;
    refuse(elapsed == 0, Refusal::NothingElapsed)?;
    let raw = raw_number(axis.nameplate, step, turn)?;
    let d = axis.shaft.approach(rules, raw)?;
    Ok(rate(rules, d, elapsed))
}

// Moves the shaft to a new reading, elapsed milliseconds after the last. The move is worked out once, for place and velocity.
pub fn moved_at(shaft: Shaft, rules: InForce, raw: u32, elapsed: u16) -> Result<MovedAt, Refusal>
    ensures { result ≡ moved_at rules shaft raw elapsed }
{
    if elapsed == 0 {
        refuse(!shaft.inside(rules), Refusal::NoAxis)?;
        return Err(Refusal::NothingElapsed);
    }
    let moved = shaft.moved_by(rules, raw)?;
    Ok(MovedAt {
        shaft: moved.shaft,
        velocity: rate(rules, moved.d, elapsed),
    })
}

// The velocity of a move by d steps.
fn rate(rules: InForce, d: i64, elapsed: u16) -> i32
    requires { Sound rules × (nat_abs d ≤ 2 ^ 31) × (0 < elapsed) }
    ensures { result ≡ rate_of rules d elapsed }
{
    let divisor = rules.steps.0 * elapsed as u64;
    limited(d * factor(rules) as i64 / divisor as i64)
}

// What a move is multiplied by, for the speed unit in force.
fn factor(rules: InForce) -> u64
    requires { Sound rules }
    ensures { (result ≡ factor_of rules) × (result ≤ 65536000) }
{
    let scale = rules.scale.0 as u64;
    match rules.speed {
        0 => scale * 1000,
        1 => scale * 100,
        2 => scale * 10,
        _ => 60000,
    }
}

// q, limited to signed 32 bits.
fn limited(q: i64) -> i32
    ensures { result ≡ clamp least greatest q }
{
    q.clamp(-0x8000_0000, 0x7fff_ffff) as i32
}
