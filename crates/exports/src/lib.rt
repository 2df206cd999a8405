// The functions for other languages: a batch from its start on, and the readers of both classes, on numbers and lent lists. Each function
// answers 0, or the number of the refusal, and then leaves the lent list as it was. The crate exports_c hands them to C. The plate has R, T and
// ident: its other fields have no part in these calls.
#![tactic(auto)]

mod run;
mod take;

ghost use Rattle.std.specs.Prelude.{◌≡◌};
ghost use Rattle.encoder.specs.{coded, plain_plate};
ghost use Rattle.parameters_reader.specs.{read_telegram, read_block};
ghost use Rattle.exports.specs.{code_of, parameters_of, take_refusal, taken, run_refusal, ran};

use encoder::nameplate::Nameplate;
use encoder::parameters::Parameters;
use encoder::quantity::Units;
use encoder::refusal::Refusal;
use parameters_reader::{read_block, read_telegram};
use run::run;
use take::take;

// Starts an axis at a first raw number and reads a batch of raw numbers after it. Where `class4` is 0 the parameters are those of class 2, else those
// of class 4.
pub fn encoder_batch(
    steps: u32,
    turns: u32,
    class4: u8,
    operating: u8,
    units: u32,
    range: u32,
    life: u8,
    speed: u8,
    first: u32,
    raws: &[u32],
    positions: &mut [u32],
) -> u8
    ensures { (result ≡ coded (run_refusal (plain_plate steps turns 0) (parameters_of class4 operating units range life speed) first raws.now positions.old))
        × (positions.new ≡ ran (plain_plate steps turns 0) (parameters_of class4 operating units range life speed) first raws.now positions.old) }
{
    let plate = Nameplate::plain(steps, turns, 0);
    let sent = parameters(class4, operating, units, range, life, speed);
    code(run(plate, sent, first, raws, positions))
}

// Class 2: octet 9, revolution units and total range of a telegram.
pub fn encoder_read_telegram(
    steps: u32,
    turns: u32,
    ident: u16,
    telegram: &[u8],
    parameters: &mut [u32],
) -> u8
    ensures { (result ≡ coded (take_refusal (plain_plate steps turns ident) 3 (read_telegram (plain_plate steps turns ident) telegram.now) parameters.old))
        × (parameters.new ≡ taken (plain_plate steps turns ident) 3 (read_telegram (plain_plate steps turns ident) telegram.now) parameters.old) }
{
    let plate = Nameplate::plain(steps, turns, ident);
    code(take(plate, 3, read_telegram(plate, telegram), parameters))
}

// Class 4: octet 1, revolution units, total range, sign-of-life limit and speed unit of a block.
pub fn encoder_read_block(steps: u32, turns: u32, block: &[u8], parameters: &mut [u32]) -> u8
    ensures { (result ≡ coded (take_refusal (plain_plate steps turns 0) 5 (read_block (plain_plate steps turns 0) block.now) parameters.old))
        × (parameters.new ≡ taken (plain_plate steps turns 0) 5 (read_block (plain_plate steps turns 0) block.now) parameters.old) }
{
    let plate = Nameplate::plain(steps, turns, 0);
    code(take(plate, 5, read_block(plate, block), parameters))
}

// 0, or the number of the refusal.
fn code(answer: Result<(), Refusal>) -> u8
    ensures { result ≡ code_of answer }
{
    match answer {
        Ok(()) => 0,
        Err(refusal) => refusal.number(),
    }
}

fn parameters(class4: u8, operating: u8, units: u32, range: u32, life: u8, speed: u8) -> Parameters
    ensures { result ≡ parameters_of class4 operating units range life speed }
{
    let units = Units(units);
    let range = Units(range);
    if class4 == 0 {
        return Parameters::Class2 {
            operating,
            units,
            range,
        };
    }
    Parameters::Class4 {
        operating,
        units,
        range,
        life,
        speed,
    }
}
