// The position of an axis, and the unshifted one (document 01, "The axis", rules 4 and 5).
ghost use Rattle.std.specs.Prelude.{◌≡◌};
ghost use Rattle.axis.specs.{reported};

use crate::Axis;
use axis_shaft::Reported;
use encoder::refusal::Refusal;

impl Axis {
    // Both positions.
    pub fn position(self) -> Result<Reported, Refusal>
        ensures { result ≡ reported self }
    {
        let rules = self.rules()?;
        self.shaft.reported(rules, self.offset)
    }
}
