// What a reader has received, as numbers in a lent list.
ghost use Rattle.std.specs.Prelude.{◌≡◌, length};
ghost use Rattle.encoder.specs.{checked};
ghost use Rattle.exports.specs.{numbers_of, Fills, take_refusal, taken};

use encoder::nameplate::Nameplate;
use encoder::parameters::Parameters;
use encoder::refusal::Refusal;

// The numbers of received parameters fill a list of `size` numbers.
pub(crate) fn take(
    plate: Nameplate,
    size: usize,
    received: Result<Parameters, Refusal>,
    list: &mut [u32],
) -> Result<(), Refusal>
    requires { Fills size received }
    ensures { (result ≡ checked (take_refusal plate size received list.old))
        × (list.new ≡ taken plate size received list.old) }
{
    plate.check_buffer(list.len(), size)?;
    put(received?, list);
    Ok(())
}

// The fields as sent, one number each.
fn put(parameters: Parameters, list: &mut [u32])
    requires { length list.old ≡ length (numbers_of parameters) }
    ensures { list.new ≡ numbers_of parameters }
{
    match parameters {
        Parameters::Class2 {
            operating,
            units,
            range,
        } => list.copy_from_slice(&[operating as u32, units.0, range.0]),
        Parameters::Class4 {
            operating,
            units,
            range,
            life,
            speed,
        } => list.copy_from_slice(&[
            operating as u32,
            units.0,
            range.0,
            life as u32,
            speed as u32,
        ]),
    }
}
