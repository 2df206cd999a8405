// The shaft: its place and its last reading, and how readings move it (document 01, "The axis", rules 1 to 5 and 7). Only this crate knows how
// the place is kept, and only this crate turns places into positions.
#![tactic(auto)]

mod place;
mod raw;
mod running;

ghost use Rattle.std.specs.Prelude.{◌≡◌};
ghost use Rattle.encoder.specs.{checked, rules_fit};
ghost use Rattle.axis_shaft.specs.{inside, begun, approached, moved, moved_by, reported_at, batch_refusal, batched, batched_list};

use encoder::effect::InForce;
use encoder::quantity::{Steps, Units};
use encoder::refusal::{Refusal, refuse};
use place::period;
use raw::{approach, check_moves, oriented};
use ring::between;

#[derive(Clone, Copy, PartialEq, Eq)]
pub struct Shaft {
    // the place of document 01, below R x L
    pub place: Steps,
    // the raw number of the last reading
    pub last: Steps,
}

// The shaft, and the move d that led there.
#[derive(Clone, Copy, PartialEq, Eq)]
pub struct MovedBy {
    pub shaft: Shaft,
    pub d: i64,
}

// The position, and the unshifted one.
#[derive(Clone, Copy, PartialEq, Eq)]
pub struct Reported {
    pub position: Units,
    pub unshifted: Units,
}

impl Shaft {
    // Before a first reading. Such a shaft is outside its limits, whatever is in force.
    pub const NOWHERE: Shaft = Shaft {
        place: Steps(0),
        last: Steps(0xffff_ffff_ffff_ffff),
    };

    // The shaft at its first reading.
    pub fn begin(rules: InForce, raw: u32) -> Result<Shaft, Refusal>
        ensures { result ≡ begun rules raw }
    {
        let last = Steps(raw as u64);
        refuse(!sound(rules), Refusal::NoAxis)?;
        refuse(rules.capacity.0 <= last.0, Refusal::WrongTurn)?;
        let first = oriented(rules, last);
        let place = Steps(first.0 % period(rules));
        Ok(Shaft { place, last })
    }

    // The shaft is within its limits.
    pub fn inside(self, rules: InForce) -> bool
        ensures { result ≡ inside rules self }
    {
        if !sound(rules) {
            return false;
        }
        (self.place.0 < period(rules)) & (self.last.0 < rules.capacity.0)
    }

    // The move of a new reading: the shorter way from the last one.
    pub fn approach(self, rules: InForce, raw: u32) -> Result<i64, Refusal>
        ensures { result ≡ approached rules self raw }
    {
        refuse(!self.inside(rules), Refusal::NoAxis)?;
        approach(rules, self.last, raw)
    }

    // The shaft after a new reading.
    pub fn moved(self, rules: InForce, raw: u32) -> Result<Shaft, Refusal>
        ensures { result ≡ moved rules self raw }
    {
        let moved = self.moved_by(rules, raw)?;
        Ok(moved.shaft)
    }

    // The same, with the move: a velocity needs it, and it is worked out once.
    pub fn moved_by(self, rules: InForce, raw: u32) -> Result<MovedBy, Refusal>
        ensures { result ≡ moved_by rules self raw }
    {
        let d = self.approach(rules, raw)?;
        let shaft = self.advanced(rules, raw, d);
        Ok(MovedBy { shaft, d })
    }

    // The position under an offset, and the unshifted one.
    pub fn reported(self, rules: InForce, offset: i64) -> Result<Reported, Refusal>
        ensures { result ≡ reported_at rules offset self }
    {
        refuse(!self.inside(rules), Refusal::NoAxis)?;
        Ok(Reported {
            position: Units(self.position(rules, offset)),
            unshifted: self.units(rules),
        })
    }

    // New readings one after the other, with the position at each. All are taken, or none.
    pub fn batch(
        self,
        rules: InForce,
        offset: i64,
        raws: &[u32],
        positions: &mut [u32],
    ) -> Result<Shaft, Refusal>
        ensures { (result ≡ batched rules self offset raws.now positions.old)
            × (positions.new ≡ batched_list rules self offset raws.now positions.old) }
    {
        self.check_batch(rules, offset, raws, positions.len())?;
        Ok(self.follow(rules, offset, raws, positions))
    }

    // Refuses a batch outside the limits, for a list of another length, or with a reading that is refused.
    fn check_batch(
        self,
        rules: InForce,
        offset: i64,
        raws: &[u32],
        room: usize,
    ) -> Result<(), Refusal>
        ensures { result ≡ checked (batch_refusal rules self offset raws.now room) }
    {
        let within = self.inside(rules) & between(offset, rules.span.0);
        refuse(!within, Refusal::NoAxis)?;
        refuse(raws.len() != room, Refusal::WrongBuffer)?;
        check_moves(rules, self.last, raws)
    }
}

// What is in force is within its limits.
fn sound(rules: InForce) -> bool
    ensures { result ≡ rules_fit rules }
{
    let steps = rules.steps.0;
    let capacity = rules.capacity.0;
    let scale = rules.scale.0;
    let span = rules.span.0;
    (1 <= steps)
        & (steps <= 65536)
        & (1 <= capacity)
        & (capacity <= 0x8000_0000)
        & (1 <= scale)
        & (scale <= 65536)
        & (1 <= span)
        & (span <= 0x8000_0000)
}
