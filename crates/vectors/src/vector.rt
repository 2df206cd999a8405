// One vector a line: a word of eight columns for what is called, R, T and the ident number of the nameplate, and what it is called on.
// Octets and the ident number are hexadecimal, other numbers decimal.
use crate::answer;
use crate::bench::Bench;
use crate::numbers::Numbers;
use crate::word::{Class, Word};
use encoder::nameplate::Nameplate;
use encoder::parameters::Parameters;
use encoder::quantity::Units;
use encoder::refusal::Refusal;
use parameters_writer::write_parameters;
use std::io;

// Writes the line, and below it the answer of its call.
pub(crate) fn run(rt: &impl Print, bench: &mut Bench, line: &[u8]) -> io::Result<()> {
    answer::line(rt, line)?;
    let Some((columns, rest)) = line.split_first_chunk() else {
        return Ok(());
    };
    let Some(word) = Word::of(columns) else {
        return Ok(());
    };
    bench.run(rt, word, &mut Numbers::of(rest))
}

// `telegram` and `block`: the octets of a class 2 telegram or of a class 4 block, to be read.
pub(crate) fn read<F: FnOnce(Nameplate, &[u8]) -> Result<Parameters, Refusal>>(
    rt: &impl Print,
    numbers: &mut Numbers,
    reader: F,
) -> io::Result<()>
    requires { F.IsAlwaysCallable reader }
{
    let plate = nameplate(numbers);
    let mut buffer = [0; 64];
    let n = numbers.fill(&mut buffer, Numbers::octet);
    answer::received(rt, plate, reader(plate, &buffer[..n]))
}

// `write 2` and `write 4`: the length of a buffer that holds EEh, and the fields in the order of the telegram or the block, to be written.
pub(crate) fn write(rt: &impl Print, class: Class, numbers: &mut Numbers) -> io::Result<()> {
    let plate = nameplate(numbers);
    let size = numbers.decimal() as usize;
    let parameters = parameters(class, numbers);
    let mut buffer = [0xee; 64];
    let Some(lent) = buffer.get_mut(..size) else {
        return Ok(());
    };
    let answer = write_parameters(plate, parameters, lent);
    answer::filled(rt, answer, lent)
}

pub(crate) fn parameters(class: Class, numbers: &mut Numbers) -> Parameters {
    let operating = numbers.octet();
    let units = Units(numbers.decimal());
    let range = Units(numbers.decimal());
    match class {
        Class::Class2 => Parameters::Class2 {
            operating,
            units,
            range,
        },
        Class::Class4 => Parameters::Class4 {
            operating,
            units,
            range,
            life: (numbers.decimal() % 256) as u8,
            speed: (numbers.decimal() % 256) as u8,
        },
    }
}

pub(crate) fn nameplate(numbers: &mut Numbers) -> Nameplate {
    let steps = numbers.decimal();
    let turns = numbers.decimal();
    let ident = (numbers.hexadecimal() % 65536) as u16;
    Nameplate::plain(steps, turns, ident)
}
