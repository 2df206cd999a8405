// The reading that moves the record itself (document 01, "The axis", its last paragraph). The loop of a board holds one axis record and lends it
// to each reading.
#![tactic(auto)]

ghost use Rattle.std.specs.Prelude.{◌≡◌};
ghost use Rattle.encoder.specs.{checked};
ghost use Rattle.axis.specs.{read};

use axis::Axis;
use encoder::quantity::{Steps, Turns};
use encoder::refusal::Refusal;

// A new reading, as `Axis::read` takes it: the record is moved, or refused and as it was.
pub fn read_in_place(axis: &mut Axis, step: Steps, turn: Turns) -> Result<(), Refusal>
    ensures { (result ≡ checked (read axis.old step.0 turn.0).refusal)
        × (axis.new ≡ (read axis.old step.0 turn.0).axis) }
{
    let next = axis.read(step, turn);
    *axis = next.axis;
    match next.refusal {
        None => Ok(()),
        Some(refusal) => Err(refusal),
    }
}
