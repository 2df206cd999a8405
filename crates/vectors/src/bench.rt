// An axis and its link, on which each line makes its call. The calls that need both are here: cycles and diagnoses. Octets are hexadecimal, other
// numbers decimal.
use crate::numbers::Numbers;
use crate::word::Word;
use crate::{answer, call, vector};
use axis::Axis;
use cyclic::telegram83::cycle_83;
use cyclic::{Cycled, cycle};
use cyclic_link::Link;
use diagnosis::diagnosis;
use parameters_reader::{read_block, read_telegram};
use std::io;

#[derive(Clone, Copy, PartialEq, Eq)]
pub struct Bench {
    pub axis: Axis,
    pub link: Link,
}

impl Bench {
    // Before the first line that describes an axis.
    pub(crate) fn none() -> Bench {
        Bench::of(call::none())
    }

    // A new axis gets a new link.
    fn of(axis: Axis) -> Bench {
        let link = Link::quiet();
        Bench { axis, link }
    }

    // Makes the call of a line. `number` is a reading by its raw number, `preset` an absolute and `change` a relative preset, `hold` sets the held
    // preset value.
    pub(crate) fn run(
        &mut self,
        rt: &impl Print,
        word: Word,
        numbers: &mut Numbers,
    ) -> io::Result<()> {
        let axis = self.axis;
        match word {
            Word::Telegram => vector::read(rt, numbers, read_telegram)?,
            Word::Block => vector::read(rt, numbers, read_block)?,
            Word::Write(class) => vector::write(rt, class, numbers)?,
            Word::Axis(class) => *self = Bench::of(call::described(class, numbers)),
            Word::Given => call::given(&mut self.axis, numbers),
            Word::Serial => call::serial(&mut self.axis, numbers),
            Word::First => self.answered(rt, call::first(axis, numbers))?,
            Word::Reading => self.reading(rt, numbers)?,
            Word::Number => self.answered(rt, axis.read_raw(numbers.decimal()))?,
            Word::Preset => self.answered(rt, axis.preset(numbers.signed(), false))?,
            Word::Change => self.answered(rt, axis.preset(numbers.signed(), true))?,
            Word::Hold => self.answered(rt, axis.store(numbers.signed()))?,
            Word::List => self.list(rt, numbers)?,
            Word::Velocity => call::velocity(rt, axis, numbers)?,
            Word::Exchange => self.exchange(rt, numbers)?,
            Word::Measured => self.measured(rt, numbers)?,
            Word::Diagnose => self.diagnose(rt, numbers)?,
            Word::Keep => self.keep(numbers),
        }
        Ok(())
    }

    // `exchange`: how many input octets are lent, each of them EEh, the raw number, and the output octets.
    fn exchange(&mut self, rt: &impl Print, numbers: &mut Numbers) -> io::Result<()> {
        let size = numbers.decimal() as usize;
        let raw = numbers.decimal();
        self.cycled(rt, size, numbers, |bench, output, input| {
            cycle(bench.axis, bench.link, raw, output, input)
        })
    }

    // `measured`, a cycle of telegram 83: the same, with the milliseconds behind the raw number.
    fn measured(&mut self, rt: &impl Print, numbers: &mut Numbers) -> io::Result<()> {
        let size = numbers.decimal() as usize;
        let raw = numbers.decimal();
        let time = (numbers.decimal() % 65536) as u16;
        self.cycled(rt, size, numbers, |bench, output, input| {
            cycle_83(bench.axis, bench.link, raw, time, output, input)
        })
    }

    fn cycled<F: FnOnce(Bench, &[u8], &mut [u8]) -> Cycled>(
        &mut self,
        rt: &impl Print,
        size: usize,
        numbers: &mut Numbers,
        one_cycle: F,
    ) -> io::Result<()>
        requires { F.IsAlwaysCallable one_cycle }
    {
        let mut output = [0; 64];
        let n = numbers.fill(&mut output, Numbers::octet);
        let mut input = [0xee; 64];
        let Some(lent) = input.get_mut(..size) else {
            return Ok(());
        };
        let next = one_cycle(*self, &output[..n], lent);
        self.axis = next.axis;
        self.link = next.link;
        answer::cycled(rt, next, lent)
    }

    // `diagnose`: how many octets are lent, each of them EEh.
    fn diagnose(&self, rt: &impl Print, numbers: &mut Numbers) -> io::Result<()> {
        let size = numbers.decimal() as usize;
        let mut buffer = [0xee; 64];
        let Some(lent) = buffer.get_mut(..size) else {
            return Ok(());
        };
        let answer = diagnosis(self.axis, self.link, lent);
        answer::filled(rt, answer, lent)
    }

    // `keep`: a link that is brought: faulty, requested, error, acknowledged, executed, due, 1 or 0; counter and expected value; and the code,
    // hexadecimal. A figure that is missing is 0.
    fn keep(&mut self, numbers: &mut Numbers) {
        self.link = Link {
            faulty: numbers.decimal() == 1,
            requested: numbers.decimal() == 1,
            error: numbers.decimal() == 1,
            acknowledged: numbers.decimal() == 1,
            executed: numbers.decimal() == 1,
            due: numbers.decimal() == 1,
            counter: numbers.decimal(),
            expected: numbers.decimal(),
            code: numbers.hexadecimal(),
        };
    }
}
