// The static library for other languages: the functions of the crate exports under their own names. `c/encoder.h` declares them for C.
#![tactic(auto)]

ghost use Rattle.std.specs.Prelude.{◌≡◌};
ghost use Rattle.encoder.specs.{coded, plain_plate};
ghost use Rattle.parameters_reader.specs.{read_telegram, read_block};
ghost use Rattle.exports.specs.{parameters_of, take_refusal, taken, run_refusal, ran};

// Starts an axis at a first raw number and reads a batch of raw numbers after it.
#[unsafe(no_mangle)]
pub extern "C" fn encoder_batch(
    steps: u32,
    turns: u32,
    class4: u8,
    operating: u8,
    units: u32,
    range: u32,
    life: u8,
    speed: u8,
    first: u32,
    raws: &[u32],
    positions: &mut [u32],
) -> u8
    ensures { (result ≡ coded (run_refusal (plain_plate steps turns 0) (parameters_of class4 operating units range life speed) first raws.now positions.old))
        × (positions.new ≡ ran (plain_plate steps turns 0) (parameters_of class4 operating units range life speed) first raws.now positions.old) }
{
    exports::encoder_batch(
        steps, turns, class4, operating, units, range, life, speed, first, raws, positions,
    )
}

// Class 2: octet 9, revolution units and total range of a telegram.
#[unsafe(no_mangle)]
pub extern "C" fn encoder_read_telegram(
    steps: u32,
    turns: u32,
    ident: u16,
    telegram: &[u8],
    parameters: &mut [u32],
) -> u8
    ensures { (result ≡ coded (take_refusal (plain_plate steps turns ident) 3 (read_telegram (plain_plate steps turns ident) telegram.now) parameters.old))
        × (parameters.new ≡ taken (plain_plate steps turns ident) 3 (read_telegram (plain_plate steps turns ident) telegram.now) parameters.old) }
{
    exports::encoder_read_telegram(steps, turns, ident, telegram, parameters)
}

// Class 4: octet 1, revolution units, total range, sign-of-life limit and speed unit of a block.
#[unsafe(no_mangle)]
pub extern "C" fn encoder_read_block(
    steps: u32,
    turns: u32,
    block: &[u8],
    parameters: &mut [u32],
) -> u8
    ensures { (result ≡ coded (take_refusal (plain_plate steps turns 0) 5 (read_block (plain_plate steps turns 0) block.now) parameters.old))
        × (parameters.new ≡ taken (plain_plate steps turns 0) 5 (read_block (plain_plate steps turns 0) block.now) parameters.old) }
{
    exports::encoder_read_block(steps, turns, block, parameters)
}
