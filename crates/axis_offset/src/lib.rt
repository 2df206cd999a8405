// Presets on numbers alone: which values are refused, and the new offset (document 01, "The axis", rule 6; rows 11 and 12).
#![tactic(auto)]

ghost use Rattle.std.specs.Prelude.{◌≡◌};
ghost use Rattle.encoder.specs.{checked};
ghost use Rattle.axis_offset.specs.{value_refusal, offset_by};

use encoder::effect::InForce;
use encoder::quantity::Units;
use encoder::refusal::{Refusal, refuse};
use ring::between;

// Refuses a value for a preset, or one to be held, with the class off or outside the range.
pub fn check_value(rules: InForce, value: i64) -> Result<(), Refusal>
    ensures { result ≡ checked (value_refusal rules value) }
{
    refuse(!rules.enabled, Refusal::ClassOff)?;
    refuse(!between(value, rules.span.0), Refusal::WrongPreset)
}

// The offset after a preset: new position - unshifted position.
pub fn offset_by(value: i64, relative: bool, position: Units, unshifted: Units, span: Units) -> i64
    ensures { result ≡ offset_by span.0 position.0 unshifted.0 value relative }
{
    let from = unshifted.0 as i64;
    let n = span.0 as u64;
    if relative {
        return ring::add(position.0 as u64, value, n) as i64 - from;
    }
    ring::add(0, value, n) as i64 - from
}
