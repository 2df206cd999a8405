// A reading of the sensor and its raw number (document 01, "Plate and reading").
#![tactic(auto)]

ghost use Rattle.std.specs.Prelude.{◌≡◌};
ghost use Rattle.encoder.specs.{checked};
ghost use Rattle.sensor.specs.{step_refusal, numbered};

use encoder::nameplate::Nameplate;
use encoder::quantity::{Steps, Turns};
use encoder::refusal::{Refusal, refuse};

// The raw number of a step within the turn and the turns counted.
pub fn raw_number(plate: Nameplate, step: Steps, turn: Turns) -> Result<u32, Refusal>
    ensures { result ≡ numbered plate step.0 turn.0 }
{
    check(plate, step, turn)?;
    Ok((turn.0 as u64 * plate.steps.0 + step.0) as u32)
}

// Refuses a step and a turn that have no raw number.
fn check(plate: Nameplate, step: Steps, turn: Turns) -> Result<(), Refusal>
    ensures { result ≡ checked (step_refusal plate step.0 turn.0) }
{
    plate.check()?;
    refuse(plate.steps.0 <= step.0, Refusal::WrongStep)?;
    refuse(plate.turns.0 <= turn.0, Refusal::WrongTurn)
}
