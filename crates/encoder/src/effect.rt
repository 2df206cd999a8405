// What plate and parameters put in force (document 01, "Class 4 block", its last paragraph).
ghost use Rattle.std.specs.Prelude.{◌≡◌};
ghost use Rattle.encoder.specs.{in_force};

use crate::nameplate::Nameplate;
use crate::operating::{class_on, reversed, scaling};
use crate::parameters::Parameters;
use crate::quantity::{Steps, Units};
use crate::refusal::Refusal;

#[derive(Clone, Copy, PartialEq, Eq)]
pub struct InForce {
    // R, per turn
    pub steps: Steps,
    // C, of all turns
    pub capacity: Steps,
    // M, per turn
    pub scale: Units,
    // L, after which the position begins again
    pub span: Units,
    // positions rise counter-clockwise
    pub reversed: bool,
    // the class is on: presets are made
    pub enabled: bool,
    // the unit of velocities, 0 to 3; a number, since the functions on a shaft take any rules
    pub speed: u8,
}

pub fn in_force(plate: Nameplate, parameters: Parameters) -> Result<InForce, Refusal>
    ensures { result ≡ in_force plate parameters }
{
    parameters.check(plate)?;
    let f = parameters.fields();
    let steps = plate.steps;
    let capacity = plate.capacity();
    let reversed = reversed(f.class4, f.operating);
    let enabled = class_on(f.operating);
    let (scale, span) = if scaling(f.operating) {
        (f.units, f.range)
    } else {
        (Units(steps.0 as u32), Units(capacity.0 as u32))
    };
    Ok(InForce {
        steps,
        capacity,
        scale,
        span,
        reversed,
        enabled,
        speed: f.speed,
    })
}
