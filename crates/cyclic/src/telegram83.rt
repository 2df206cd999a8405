// Telegram 83 (request 1): the cycle of a class 4 axis with its velocity. The input is the twelve octets of telegram 81, then NIST_B.
ghost use Rattle.std.specs.Prelude.{◌≡◌, length};
ghost use Rattle.integer.specs.{octets};
ghost use Rattle.ring.specs.{complement};
ghost use Rattle.encoder.specs.{checked, ◌before◌};
ghost use Rattle.axis.specs.{yielded};
ghost use Rattle.cyclic_link.specs.{link_refusal};
ghost use Rattle.cyclic.specs.{axis_after, link_left, done, refusal83, cycle83_refusal, cycle83, cycle83_input};

use crate::standing::measure;
use crate::{Cycled, respond};
use axis::Axis;
use cyclic_link::sign_of_life::life_of;
use cyclic_link::{Life, Link};
use encoder::refusal::{Refusal, refuse};
use octets::put_number;
use ring::complement;

// One cycle, elapsed milliseconds after the last accepted raw number. Axis and link go forward as in the cycle of telegram 81.
pub fn cycle_83(
    axis: Axis,
    link: Link,
    raw: u32,
    elapsed: u16,
    output: &[u8],
    input: &mut [u8],
) -> Cycled
    ensures { (result ≡ cycle83 axis link raw elapsed output.now input.old)
        × (input.new ≡ cycle83_input axis link raw elapsed output.now input.old) }
{
    Cycled::of(axis, link, run(axis, link, raw, elapsed, output, input))
}

// What is in force is worked out once, here.
fn run(
    axis: Axis,
    link: Link,
    raw: u32,
    elapsed: u16,
    output: &[u8],
    input: &mut [u8],
) -> Result<Cycled, Refusal>
    ensures { (result ≡ yielded (cycle83_refusal axis link elapsed output.now input.old) (done (axis_after axis link raw output.now) (link_left axis link raw output.now)))
        × (input.new ≡ cycle83_input axis link raw elapsed output.now input.old) }
{
    let rules = axis.rules()?;
    let parameters = axis.parameters;
    let fields = parameters.fields();
    let life = life_of(fields);
    check(
        life,
        link,
        fields.class4,
        output.len(),
        input.len(),
        elapsed,
    )?;
    let measured = measure(axis, rules, raw, elapsed);
    let next = measured.next;
    let done = respond(fields, life, next, link, rules, output, &mut input[0..12]);
    put_velocity(measured.velocity, &mut input[12..16]);
    Ok(done)
}

// Refuses by the link, then by class, lengths and elapsed time.
fn check(
    life: Life,
    link: Link,
    class4: bool,
    output: usize,
    input: usize,
    elapsed: u16,
) -> Result<(), Refusal>
    ensures { result ≡ checked (link_refusal life link before refusal83 class4 output input elapsed) }
{
    let right = class4 & (output == 4) & (input == 16);
    link.check(life)?;
    refuse(!right, Refusal::WrongBuffer)?;
    refuse(elapsed == 0, Refusal::NothingElapsed)
}

// NIST_B in two's complement.
fn put_velocity(velocity: i32, part: &mut [u8])
    ensures { part.new ≡ octets (length part.old) (complement velocity) }
{
    put_number(part, complement(velocity as i64));
}
