// Presets, and the held preset value (document 01, "The axis", rule 6). The crate axis_offset refuses values and works out the offset.
ghost use Rattle.std.specs.Prelude.{◌≡◌};
ghost use Rattle.axis.specs.{yielded, preset_refusal, presetted, holding, preset, store};

use crate::{Axis, Next};
use axis_offset::{check_value, offset_by};
use encoder::refusal::Refusal;

impl Axis {
    // An absolute preset sets the position to the value; a relative one adds the value.
    pub fn preset(self, value: i64, relative: bool) -> Next
        ensures { result ≡ preset self value relative }
    {
        Next::of(self, self.presetted(value, relative))
    }

    // The axis after a preset.
    fn presetted(self, value: i64, relative: bool) -> Result<Axis, Refusal>
        ensures { result ≡ yielded (preset_refusal self value) (presetted self value relative) }
    {
        let rules = self.rules()?;
        check_value(rules, value)?;
        // an axis within its limits always has a position
        let at = self.shaft.reported(rules, self.offset)?;
        let offset = offset_by(value, relative, at.position, at.unshifted, rules.span);
        Ok(Axis {
            offset,
            preset: value,
            ..self
        })
    }

    // Sets the held preset value, and makes no preset.
    pub fn store(self, value: i64) -> Next
        ensures { result ≡ store self value }
    {
        Next::of(self, self.holding(value))
    }

    // The axis with a held preset value.
    fn holding(self, value: i64) -> Result<Axis, Refusal>
        ensures { result ≡ yielded (preset_refusal self value) (holding self value) }
    {
        let rules = self.rules()?;
        check_value(rules, value)?;
        Ok(Axis {
            stored: value,
            ..self
        })
    }
}
