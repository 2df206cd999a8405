// The readers of both classes (document 01, "Class 2 telegram" and "Class 4 block").
#![tactic(auto)]

ghost use Rattle.std.specs.Prelude.{◌≡◌, None, length};
ghost use Rattle.encoder.specs.{◌before◌, checked, plate_refusal, parameters_refusal, refusal_on};
ghost use Rattle.parameters_reader.specs.{received, frame_refusal, ident_refusal, telegram_parameters, read_telegram, block_parameters, read_block};

use encoder::nameplate::Nameplate;
use encoder::parameters::Parameters;
use encoder::quantity::Units;
use encoder::refusal::{Refusal, refuse};
use octets::number;

// Class 2: a telegram of 17 octets.
pub fn read_telegram(plate: Nameplate, telegram: &[u8]) -> Result<Parameters, Refusal>
    ensures { result ≡ read_telegram plate telegram.now }
{
    check_frame(plate, telegram.len(), 17)?;
    take_telegram(plate, telegram)
}

// Class 4: a block of 11 octets.
pub fn read_block(plate: Nameplate, block: &[u8]) -> Result<Parameters, Refusal>
    ensures { result ≡ read_block plate block.now }
{
    check_frame(plate, block.len(), 11)?;
    take_block(plate, block)
}

// What is refused before an octet is read: a nameplate outside its limits, and another length than the one that is due.
fn check_frame(plate: Nameplate, octets: usize, due: usize) -> Result<(), Refusal>
    ensures { result ≡ checked (frame_refusal plate octets due) }
{
    plate.check()?;
    refuse(octets != due, Refusal::WrongLength)
}

// What a telegram of 17 octets has, judged on a nameplate within its limits.
fn take_telegram(plate: Nameplate, telegram: &[u8]) -> Result<Parameters, Refusal>
    requires { (plate_refusal plate ≡ None) × (length telegram.now ≡ 17) }
    ensures { result ≡ received (ident_refusal plate telegram.now before parameters_refusal plate (telegram_parameters telegram.now)) (telegram_parameters telegram.now) }
{
    let ident = number(&telegram[4..6]);
    refuse(ident != plate.ident as u32, Refusal::OtherIdent)?;
    let units = number(&telegram[9..13]);
    let range = number(&telegram[13..17]);
    let parameters = Parameters::Class2 {
        operating: telegram[8],
        units: Units(units),
        range: Units(range),
    };
    judge(plate, parameters)
}

// The same of a block of 11 octets.
fn take_block(plate: Nameplate, block: &[u8]) -> Result<Parameters, Refusal>
    requires { (plate_refusal plate ≡ None) × (length block.now ≡ 11) }
    ensures { result ≡ received (parameters_refusal plate (block_parameters block.now)) (block_parameters block.now) }
{
    let units = number(&block[1..5]);
    let range = number(&block[5..9]);
    let parameters = Parameters::Class4 {
        operating: block[0],
        units: Units(units),
        range: Units(range),
        life: block[9],
        speed: block[10],
    };
    judge(plate, parameters)
}

// The parameters, where the nameplate takes them.
fn judge(plate: Nameplate, parameters: Parameters) -> Result<Parameters, Refusal>
    ensures { result ≡ received (refusal_on plate parameters) parameters }
{
    parameters.check(plate)?;
    Ok(parameters)
}
