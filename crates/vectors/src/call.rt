// Calls on an axis, a line for each: a word of eight columns, and the numbers that the call takes, decimal but for the octet of the
// parameters. `axis  2` and `axis  4` bring a nameplate and parameters, and `given` the numbers of a record.
use crate::answer;
use crate::bench::Bench;
use crate::lent::lent;
use crate::numbers::Numbers;
use crate::vector::{nameplate, parameters};
use crate::word::Class;
use axis::{Axis, Next};
use axis_batch::batch;
use axis_shaft::Shaft;
use encoder::nameplate::Nameplate;
use encoder::parameters::Parameters;
use encoder::quantity::{Steps, Turns, Units};
use std::io;

// `axis  2` and `axis  4`: a nameplate and parameters, not started.
pub(crate) fn described(class: Class, numbers: &mut Numbers) -> Axis {
    let plate = nameplate(numbers);
    fresh(plate, parameters(class, numbers))
}

// Before the first line that describes an axis: a record that every call refuses.
pub(crate) fn none() -> Axis {
    fresh(
        Nameplate::plain(0, 0, 0),
        Parameters::Class2 {
            operating: 0,
            units: Units(0),
            range: Units(0),
        },
    )
}

fn fresh(nameplate: Nameplate, parameters: Parameters) -> Axis {
    Axis {
        nameplate,
        parameters,
        shaft: Shaft::NOWHERE,
        offset: 0,
        preset: 0,
        stored: 0,
    }
}

// `given`: place, last reading, offset, last preset and held preset value, whatever they are.
pub(crate) fn given(axis: &mut Axis, numbers: &mut Numbers) {
    axis.shaft = Shaft {
        place: Steps(numbers.long()),
        last: Steps(numbers.long()),
    };
    axis.offset = numbers.signed();
    axis.preset = numbers.signed();
    axis.stored = numbers.signed();
}

// `serial`: the software version and the serial of the nameplate, in twelve octets.
pub(crate) fn serial(axis: &mut Axis, numbers: &mut Numbers) {
    let mut software = [0; 2];
    let mut serial = [0; 10];
    numbers.fill(&mut software, Numbers::octet);
    numbers.fill(&mut serial, Numbers::octet);
    axis.nameplate.software = software;
    axis.nameplate.serial = serial;
}

// A step and a turn.
fn step_and_turn(numbers: &mut Numbers) -> (Steps, Turns) {
    let step = Steps(u64::from(numbers.decimal()));
    let turn = Turns(numbers.decimal());
    (step, turn)
}

// `first`: starts the axis at a step and a turn.
pub(crate) fn first(axis: Axis, numbers: &mut Numbers) -> Next {
    let (step, turn) = step_and_turn(numbers);
    Axis::start(axis.nameplate, axis.parameters, step, turn)
}

// `velocity`: a step, a turn, and the milliseconds since the last reading.
pub(crate) fn velocity(rt: &impl Print, axis: Axis, numbers: &mut Numbers) -> io::Result<()> {
    let (step, turn) = step_and_turn(numbers);
    let elapsed = (numbers.decimal() % 65536) as u16;
    answer::speed(rt, axis_velocity::velocity(axis, step, turn, elapsed))
}

impl Bench {
    // Prints the answer, and keeps the axis that it leaves.
    pub(crate) fn answered(&mut self, rt: &impl Print, next: Next) -> io::Result<()> {
        self.axis = next.axis;
        answer::next(rt, next)
    }

    // `reading`: a step and a turn, made both ways, by value and through a lent record. It says `differs` where the two are not the same.
    pub(crate) fn reading(&mut self, rt: &impl Print, numbers: &mut Numbers) -> io::Result<()> {
        let (step, turn) = step_and_turn(numbers);
        let next = self.axis.read(step, turn);
        let other = lent(self.axis, step, turn);
        self.answered(rt, next)?;
        if next != other {
            println!(rt; "  differs")?;
        }
        Ok(())
    }

    // `list`: how many positions are lent, each of them 7, and the raw numbers.
    pub(crate) fn list(&mut self, rt: &impl Print, numbers: &mut Numbers) -> io::Result<()> {
        let size = numbers.decimal() as usize;
        let mut raws = [0; 64];
        let n = numbers.fill(&mut raws, Numbers::decimal);
        let mut positions = [7; 64];
        let Some(list) = positions.get_mut(..size) else {
            return Ok(());
        };
        self.answered(rt, batch(self.axis, &raws[..n], list))?;
        answer::positions(rt, list)
    }
}
