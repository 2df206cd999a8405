// A batch, document 01's pass: raw numbers read one after the other, with the position at each ("The axis", rule 7).
#![tactic(auto)]

ghost use Rattle.std.specs.Prelude.{◌≡◌};
ghost use Rattle.axis.specs.{yielded};
ghost use Rattle.axis_batch.specs.{after, batch_refusal, batch, batch_list};

use axis::{Axis, Next};
use encoder::refusal::Refusal;

// All of the raw numbers are read, or none. What is in force is worked out once.
pub fn batch(axis: Axis, raws: &[u32], positions: &mut [u32]) -> Next
    ensures { (result ≡ batch axis raws.now positions.old)
        × (positions.new ≡ batch_list axis raws.now positions.old) }
{
    Next::of(axis, after(axis, raws, positions))
}

// The axis after all of them.
fn after(axis: Axis, raws: &[u32], positions: &mut [u32]) -> Result<Axis, Refusal>
    ensures { (result ≡ yielded (batch_refusal axis raws.now positions.old) (after axis raws.now))
        × (positions.new ≡ batch_list axis raws.now positions.old) }
{
    let rules = axis.rules()?;
    let shaft = axis.shaft.batch(rules, axis.offset, raws, positions)?;
    Ok(Axis { shaft, ..axis })
}
