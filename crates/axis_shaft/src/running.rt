// Units and rest as running values (document 02, request 4): each entry of a batch works them out from its own move and the two before it. The
// place has no part in it.
ghost use Rattle.std.specs.Prelude.{◌≡◌, ◌≤◌, ◌<◌, ◌^◌, None, length, pos, nat_abs, ◌+ℤ◌};
ghost use Rattle.integer.specs.{◌modulo◌};
ghost use Rattle.encoder.specs.{Sound};
ghost use Rattle.axis_shaft.specs.{Inside, refusal_in, after, positions_in};
ghost use Rattle.axis_shaft.specs.{Within, share_of, carried, onward, ran_to, running_of, shaft_of, lead_of};

use crate::Shaft;
use crate::raw::move_to;
use encoder::effect::InForce;
use encoder::quantity::{Steps, Units};

#[derive(Clone, Copy, PartialEq, Eq)]
pub struct Running {
    // the unshifted position
    pub units: Units,
    // what dividing place x M by R leaves
    pub rest: u64,
    // how many total ranges the place has gone through, below M: units and rest do not tell the place
    pub ranges: u64,
    // the raw number of the last reading
    pub last: Steps,
}

// A move in units: d x M is whole x R + part, with part below R.
#[derive(Clone, Copy, PartialEq, Eq)]
pub struct Share {
    pub whole: i64,
    pub part: u64,
}

// Whole turns, in steps and in units. A move and so many turns are a positive number and leave the same part. It has more than 32 bits for either
// sign of the move, so that the same division does for all. And whole rounds of M total ranges, in units, for units that leave their range.
#[derive(Clone, Copy, PartialEq, Eq)]
pub struct Lead {
    pub steps: Steps,
    pub units: u64,
    pub rounds: u64,
}

// What a batch works out once.
fn lead_of(rules: InForce) -> Lead
    requires { Sound rules }
    ensures { result ≡ lead_of rules }
{
    let turns = 0x2_0000_0000 / rules.steps.0 + 1;
    let round = rules.scale.0 as u64 * rules.span.0 as u64;
    Lead {
        steps: Steps(turns * rules.steps.0),
        units: turns * rules.scale.0 as u64,
        rounds: (0x10_0000_0000_0000 / round + 1) * round,
    }
}

// The whole units of a move, rounded down, and what is left.
fn share_of(rules: InForce, lead: Lead, d: i64) -> Share
    requires { Sound rules × (lead ≡ lead_of rules) × (nat_abs d ≤ 2 ^ 31) }
    ensures { result ≡ share_of rules d }
{
    let steps = rules.steps.0;
    let ahead = (d + lead.steps.0 as i64) as u64;
    let parts = ahead * rules.scale.0 as u64;
    Share {
        whole: (parts / steps) as i64 - lead.units as i64,
        part: parts % steps,
    }
}

impl Shaft {
    // The running values of the place.
    fn running(self, rules: InForce) -> Running
        requires { Inside rules self }
        ensures { result ≡ running_of rules self }
    {
        let steps = rules.steps.0;
        let span = rules.span.0 as u64;
        let parts = self.place.0 * rules.scale.0 as u64;
        let whole = parts / steps;
        let last = self.last;
        Running {
            units: Units((whole % span) as u32),
            rest: parts % steps,
            ranges: whole / span,
            last,
        }
    }

    // The shaft after accepted readings, with the position at each.
    pub(crate) fn follow(
        self,
        rules: InForce,
        offset: i64,
        raws: &[u32],
        positions: &mut [u32],
    ) -> Shaft
        requires { Inside rules self × (nat_abs offset < rules.span.0) × (length raws.now ≡ length positions.old) × (refusal_in rules self.last.0 raws.now ≡ None) }
        ensures { (result ≡ after rules self raws.now) × (positions.new ≡ positions_in rules offset self raws.now) }
    {
        let lead = lead_of(rules);
        let mut running = self.running(rules);
        for i in 0..raws.len() {
            running = running.moved(rules, lead, raws[i]);
            positions[i] = running.position(rules, offset);
        }
        running.shaft(rules)
    }
}

impl Running {
    // The running values after one more reading.
    fn moved(self, rules: InForce, lead: Lead, raw: u32) -> Running
        requires { Sound rules × Within rules self × (lead ≡ lead_of rules) × (raw < rules.capacity.0) }
        ensures { result ≡ ran_to rules self raw }
    {
        let last = self.last;
        let by = share_of(rules, lead, move_to(rules, last, raw));
        let mut next = self.onward(rules, lead, self.carried(rules, by));
        let here = Steps(raw as u64);
        next.last = here;
        next
    }

    // The whole units of a move and the new rest: where the rest is R or more, R of it are one more unit.
    fn carried(self, rules: InForce, by: Share) -> Share
        requires { Sound rules × (self.rest < rules.steps.0) × (by.part < rules.steps.0) × (nat_abs by.whole ≤ 2 ^ 50) }
        ensures { result ≡ carried rules self.rest by }
    {
        let steps = rules.steps.0;
        let rest = self.rest + by.part;
        if rest < steps {
            return Share {
                whole: by.whole,
                part: rest,
            };
        }
        Share {
            whole: by.whole + 1,
            part: rest - steps,
        }
    }

    // So many whole units on, with a new rest. Most moves stay within the total range and need no division. Where a total range ends, or several, the
    // units are counted ahead by whole rounds, which leave units and ranges as they are.
    fn onward(self, rules: InForce, lead: Lead, by: Share) -> Running
        requires { Sound rules × Within rules self × (lead ≡ lead_of rules) × (nat_abs by.whole ≤ 2 ^ 51) }
        ensures { result ≡ onward rules self by }
    {
        let last = self.last;
        let span = rules.span.0 as u64;
        let to = self.units.0 as i64 + by.whole;
        if (0 <= to) & (to < span as i64) {
            return Running {
                units: Units(to as u32),
                rest: by.part,
                ranges: self.ranges,
                last,
            };
        }
        let ahead = (to + lead.rounds as i64) as u64;
        Running {
            units: Units((ahead % span) as u32),
            rest: by.part,
            ranges: (self.ranges + ahead / span) % rules.scale.0 as u64,
            last,
        }
    }

    // The position under an offset. Most need no remainder.
    fn position(self, rules: InForce, offset: i64) -> u32
        requires { Sound rules × (nat_abs offset < rules.span.0) }
        ensures { result ≡ (pos self.units.0 +ℤ offset) modulo rules.span.0 }
    {
        let at = self.units.0 as i64 + offset;
        if (0 <= at) & (at < rules.span.0 as i64) {
            return at as u32;
        }
        ring::add(self.units.0 as u64, offset, rules.span.0 as u64) as u32
    }

    // The shaft that these are of.
    fn shaft(self, rules: InForce) -> Shaft
        requires { Sound rules × Within rules self }
        ensures { result ≡ shaft_of rules self }
    {
        let whole = self.ranges * rules.span.0 as u64 + self.units.0 as u64;
        let parts = whole * rules.steps.0 + self.rest;
        let place = Steps(parts / rules.scale.0 as u64);
        let last = self.last;
        Shaft { place, last }
    }
}
