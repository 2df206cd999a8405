// A reading through a record that is lent, and moved where it lies.
ghost use Rattle.std.specs.Prelude.{◌≡◌};
ghost use Rattle.axis.specs.{read};

use axis::{Axis, Next};
use axis_in_place::read_in_place;
use encoder::quantity::{Steps, Turns};

pub(crate) fn lent(axis: Axis, step: Steps, turn: Turns) -> Next
    ensures { result ≡ read axis step.0 turn.0 }
{
    let mut record = axis;
    let refusal = read_in_place(&mut record, step, turn).err();
    Next {
        axis: record,
        refusal,
    }
}
