// The writer of both classes (document 01, "Class 4 block").
#![tactic(auto)]

ghost use Rattle.std.specs.Prelude.{◌≡◌, length};
ghost use Rattle.encoder.specs.{checked};
ghost use Rattle.parameters_writer.specs.{length_of, telegram_of, block_of, octets_of, write_refusal, written, written_octets};

use encoder::nameplate::Nameplate;
use encoder::parameters::Parameters;
use encoder::quantity::Units;
use encoder::refusal::Refusal;
use octets::put_number;

// Fills a buffer of the length of the parameters' class; a refused call leaves it as it was.
pub fn write_parameters(
    plate: Nameplate,
    parameters: Parameters,
    buffer: &mut [u8],
) -> Result<(), Refusal>
    ensures { (result ≡ written plate parameters buffer.old)
        × (buffer.new ≡ written_octets plate parameters buffer.old) }
{
    check(plate, parameters, buffer.len())?;
    fill(plate.ident, parameters, buffer);
    Ok(())
}

// Refuses parameters for a buffer of so many octets.
fn check(plate: Nameplate, parameters: Parameters, size: usize) -> Result<(), Refusal>
    ensures { result ≡ checked (write_refusal plate parameters size) }
{
    plate.check_buffer(size, len(parameters))?;
    parameters.check(plate)
}

// How many octets the parameters take.
fn len(parameters: Parameters) -> usize
    ensures { result ≡ length_of parameters }
{
    match parameters {
        Parameters::Class2 { .. } => 17,
        Parameters::Class4 { .. } => 11,
    }
}

fn fill(ident: u16, parameters: Parameters, buffer: &mut [u8])
    requires { length buffer.old ≡ length_of parameters }
    ensures { buffer.new ≡ octets_of ident parameters buffer.old }
{
    match parameters {
        Parameters::Class2 {
            operating,
            units,
            range,
        } => fill_telegram(ident, operating, units, range, buffer),
        Parameters::Class4 {
            operating,
            units,
            range,
            life,
            speed,
        } => fill_block(operating, units, range, life, speed, buffer),
    }
}

// Octets 5, 6 and 9 to 17 of a telegram. The writer does not touch the others.
fn fill_telegram(ident: u16, operating: u8, units: Units, range: Units, telegram: &mut [u8])
    requires { length telegram.old ≡ 17 }
    ensures { telegram.new ≡ telegram_of ident operating units range telegram.old }
{
    put_number(&mut telegram[4..6], ident as u32);
    put_number(&mut telegram[9..13], units.0);
    put_number(&mut telegram[13..17], range.0);
    telegram[8] = operating;
}

// All octets of a block.
fn fill_block(operating: u8, units: Units, range: Units, life: u8, speed: u8, block: &mut [u8])
    requires { length block.old ≡ 11 }
    ensures { block.new ≡ block_of operating units range life speed }
{
    put_number(&mut block[1..5], units.0);
    put_number(&mut block[5..9], range.0);
    block[0] = operating;
    block[9] = life;
    block[10] = speed;
}
