// Answers in words: what is in force, the octets of a buffer, or the number of the refusal.
use axis::{Axis, Next};
use axis_shaft::Reported;
use cyclic::Cycled;
use encoder::effect::{InForce, in_force};
use encoder::nameplate::Nameplate;
use encoder::parameters::Parameters;
use encoder::refusal::Refusal;
use std::io;

// A reader's answer, with what the parameters put in force on the nameplate.
pub(crate) fn received(
    rt: &impl Print,
    plate: Nameplate,
    answer: Result<Parameters, Refusal>,
) -> io::Result<()> {
    match answer.and_then(|parameters| in_force(plate, parameters)) {
        Ok(rules) => taken(rt, rules),
        Err(refusal) => refused(rt, refusal),
    }
}

fn taken(rt: &impl Print, rules: InForce) -> io::Result<()> {
    let direction = if rules.reversed { "ccw" } else { "cw" };
    let presets = if rules.enabled { "on" } else { "off" };
    println!(rt;
        "  M {} L {} {direction} {presets}",
        rules.scale.0, rules.span.0
    )
}

// The answer of the writer or of a diagnosis, with the buffer as it left it.
pub(crate) fn filled(
    rt: &impl Print,
    answer: Result<(), Refusal>,
    buffer: &[u8],
) -> io::Result<()> {
    match answer {
        Ok(()) => println!(rt; "  done")?,
        Err(refusal) => refused(rt, refusal)?,
    }
    lent(rt, buffer)
}

// What a cycle leaves: the axis or the number of the refusal, the link and the input octets. Of the link there are six flags, counter and expected
// value of the sign of life, and the code of the error.
pub(crate) fn cycled(rt: &impl Print, answer: Cycled, input: &[u8]) -> io::Result<()> {
    let axis = answer.axis;
    let refusal = answer.refusal;
    next(rt, Next { axis, refusal })?;
    let link = answer.link;
    print!(rt; "  link")?;
    flag(rt, link.faulty)?;
    flag(rt, link.requested)?;
    flag(rt, link.error)?;
    flag(rt, link.acknowledged)?;
    flag(rt, link.executed)?;
    flag(rt, link.due)?;
    println!(rt; " {} {} {:04x}", link.counter, link.expected, link.code)?;
    lent(rt, input)
}

fn flag(rt: &impl Print, is_set: bool) -> io::Result<()> {
    print!(rt; " {}", u8::from(is_set))
}

// The octets of a buffer.
fn lent(rt: &impl Print, buffer: &[u8]) -> io::Result<()> {
    print!(rt; " ")?;
    for octet in buffer {
        print!(rt; " {octet:02x}")?;
    }
    println!(rt; "")
}

// The axis that a call leaves: positions, offset, presets; or the number of the refusal.
pub(crate) fn next(rt: &impl Print, answer: Next) -> io::Result<()> {
    match shown(answer) {
        Ok((axis, at)) => println!(rt;
            "  at {} unshifted {} offset {} preset {} stored {}",
            at.position.0, at.unshifted.0, axis.offset, axis.preset, axis.stored
        ),
        Err(refusal) => refused(rt, refusal),
    }
}

fn shown(answer: Next) -> Result<(Axis, Reported), Refusal> {
    let axis = answer.taken()?;
    let at = axis.position()?;
    Ok((axis, at))
}

pub(crate) fn speed(rt: &impl Print, answer: Result<i32, Refusal>) -> io::Result<()> {
    match answer {
        Ok(velocity) => println!(rt; "  velocity {velocity}"),
        Err(refusal) => refused(rt, refusal),
    }
}

// The list that a batch leaves.
pub(crate) fn positions(rt: &impl Print, list: &[u32]) -> io::Result<()> {
    print!(rt; "  list")?;
    for position in list {
        print!(rt; " {position}")?;
    }
    println!(rt; "")
}

fn refused(rt: &impl Print, refusal: Refusal) -> io::Result<()> {
    println!(rt; "  {refusal}")
}

pub(crate) fn line(rt: &impl Print, octets: &[u8]) -> io::Result<()> {
    rt.write_all(octets)?;
    rt.write_all(b"\n")
}
