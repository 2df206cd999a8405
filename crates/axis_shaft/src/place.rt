// The place, kept modulo R x L, and its position (document 01, "The axis", rules 3 to 5).
ghost use Rattle.std.specs.Prelude.{◌≡◌, ◌<◌};
ghost use Rattle.encoder.specs.{Sound};
ghost use Rattle.axis_shaft.specs.{period, Inside, move_of, moved_to, unshifted, position_at};

use crate::Shaft;
use encoder::effect::InForce;
use encoder::quantity::{Steps, Units};

// R x L. After so many steps place and position repeat.
pub(crate) fn period(rules: InForce) -> u64
    requires { Sound rules }
    ensures { (result ≡ period rules) × (0 < result) }
{
    rules.steps.0 * rules.span.0 as u64
}

impl Shaft {
    // The shaft after an accepted reading that moves it by d.
    pub(crate) fn advanced(self, rules: InForce, raw: u32, d: i64) -> Shaft
        requires { Inside rules self × (raw < rules.capacity.0) × (d ≡ move_of rules self.last.0 raw) }
        ensures { result ≡ moved_to rules self raw }
    {
        let last = Steps(raw as u64);
        let place = Steps(ring::add(self.place.0, d, period(rules)));
        Shaft { place, last }
    }

    // The unshifted position.
    pub(crate) fn units(self, rules: InForce) -> Units
        requires { Inside rules self }
        ensures { (result.0 ≡ unshifted rules self) × (result.0 < rules.span.0) }
    {
        let steps = rules.steps.0;
        let scale = rules.scale.0 as u64;
        let span = rules.span.0 as u64;
        Units((self.place.0 * scale / steps % span) as u32)
    }

    // The position.
    pub(crate) fn position(self, rules: InForce, offset: i64) -> u32
        requires { Inside rules self }
        ensures { result ≡ position_at rules offset self }
    {
        let unshifted = self.units(rules);
        ring::add(unshifted.0 as u64, offset, rules.span.0 as u64) as u32
    }
}
