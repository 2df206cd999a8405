// A batch from its start on.
ghost use Rattle.std.specs.Prelude.{◌≡◌};
ghost use Rattle.encoder.specs.{checked};
ghost use Rattle.exports.specs.{run_refusal, ran};

use axis::Axis;
use axis_batch::batch;
use encoder::nameplate::Nameplate;
use encoder::parameters::Parameters;
use encoder::refusal::Refusal;

pub(crate) fn run(
    plate: Nameplate,
    parameters: Parameters,
    first: u32,
    raws: &[u32],
    positions: &mut [u32],
) -> Result<(), Refusal>
    ensures { (result ≡ checked (run_refusal plate parameters first raws.now positions.old))
        × (positions.new ≡ ran plate parameters first raws.now positions.old) }
{
    plate.check_buffer(raws.len(), positions.len())?;
    let axis = Axis::start_raw(plate, parameters, first).taken()?;
    batch(axis, raws, positions).taken()?;
    Ok(())
}
