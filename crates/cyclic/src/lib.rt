// The cyclic exchange with the control (document 01, "One cycle"): an axis runs the cycle of the class that its parameters came from.
#![tactic(auto)]

mod class4;
mod standing;
pub mod telegram83;

ghost use Rattle.std.specs.Prelude.{◌≡◌, length};
ghost use Rattle.encoder.specs.{checked, ◌before◌, fields_of};
ghost use Rattle.axis.specs.{Ready, yielded};
ghost use Rattle.cyclic_link.specs.{link_refusal};
ghost use Rattle.cyclic.specs.{standing, input_octets, length_refusal, control_by, input_by, axis_after, link_left, done, cycled_by, responded, cycle_refusal, cycle, cycle_input};

use axis::{Axis, Next};
use cyclic_link::sign_of_life::life_of;
use cyclic_link::{Control, Life, Link, react};
use encoder::effect::InForce;
use encoder::parameters::Fields;
use encoder::refusal::{Refusal, refuse};
use octets::{number, put_number};
use standing::{Standing, preset, take};

// The next axis and the next link; both as they were beside the refusal, since the cycles that follow go on with them.
#[derive(Clone, Copy, PartialEq, Eq)]
pub struct Cycled {
    pub axis: Axis,
    pub link: Link,
    pub refusal: Option<Refusal>,
}

// One cycle: takes the raw number, does what the output octets ask for, and fills the input octets. A raw number that would be refused makes
// the cycle faulty.
pub fn cycle(axis: Axis, link: Link, raw: u32, output: &[u8], input: &mut [u8]) -> Cycled
    ensures { (result ≡ cycle axis link raw output.now input.old)
        × (input.new ≡ cycle_input axis link raw output.now input.old) }
{
    Cycled::of(axis, link, run(axis, link, raw, output, input))
}

impl Cycled {
    // The answer by the cycle that is run on `axis` and `link`.
    pub(crate) fn of(axis: Axis, link: Link, run: Result<Cycled, Refusal>) -> Cycled
        ensures { result ≡ cycled_by axis link run }
    {
        match run {
            Ok(cycled) => cycled,
            Err(refusal) => Cycled {
                axis,
                link,
                refusal: Some(refusal),
            },
        }
    }
}

// What is in force is worked out once, here.
fn run(axis: Axis, link: Link, raw: u32, output: &[u8], input: &mut [u8]) -> Result<Cycled, Refusal>
    ensures { (result ≡ yielded (cycle_refusal axis link output.now input.old) (done (axis_after axis link raw output.now) (link_left axis link raw output.now)))
        × (input.new ≡ cycle_input axis link raw output.now input.old) }
{
    let rules = axis.rules()?;
    let parameters = axis.parameters;
    let fields = parameters.fields();
    let life = life_of(fields);
    check(life, link, fields.class4, output.len(), input.len())?;
    let next = take(axis, rules, raw);
    Ok(respond(fields, life, next, link, rules, output, input))
}

// Refuses by the link, then by the lengths.
fn check(life: Life, link: Link, class4: bool, output: usize, input: usize) -> Result<(), Refusal>
    ensures { result ≡ checked (link_refusal life link before length_refusal class4 output input) }
{
    link.check(life)?;
    check_lengths(class4, output, input)
}

// Refuses buffers of so many octets that are not those of the class.
fn check_lengths(class4: bool, output: usize, input: usize) -> Result<(), Refusal>
    ensures { result ≡ checked (length_refusal class4 output input) }
{
    let right = (output == 4) & (input == input_octets(class4));
    refuse(!right, Refusal::WrongBuffer)
}

// 4 octets come in, or 12 in telegram 81.
fn input_octets(class4: bool) -> usize
    ensures { result ≡ input_octets class4 }
{
    if class4 { 12 } else { 4 }
}

// What follows on the raw number in every cycle, that of telegram 83 too: the reaction to the output, the preset and the input.
fn respond(
    fields: Fields,
    life: Life,
    next: Next,
    link: Link,
    rules: InForce,
    output: &[u8],
    input: &mut [u8],
) -> Cycled
    requires { Ready next.axis rules × (fields ≡ fields_of next.axis.parameters)
        × (length output.now ≡ 4) × (length input.old ≡ input_octets fields.class4) }
    ensures { (result ≡ responded fields.class4 life rules link next output.now)
        × (input.new ≡ input_by fields.class4 result.link (control_by fields.class4 output.now).word result.axis) }
{
    let moved = next.axis;
    let faulty = next.refusal.is_some();
    let control = control_of(fields.class4, output);
    let reaction = react(
        fields.class4,
        life,
        link,
        rules,
        faulty,
        control,
        moved.stored,
    );
    let kept = reaction.link;
    let asked = reaction.preset;
    let after = preset(moved, rules, asked);
    fill(fields, after, kept, control.word, input);
    let left = after.axis;
    Cycled {
        axis: left,
        link: kept,
        refusal: None,
    }
}

// What the control sends, by the class.
fn control_of(class4: bool, output: &[u8]) -> Control
    requires { length output.now ≡ 4 }
    ensures { result ≡ control_by class4 output.now }
{
    if class4 {
        return class4::control(output);
    }
    Control {
        word: number(output),
        sign: 0,
    }
}

// Fills the input. Class 2 shows the position alone.
fn fill(fields: Fields, after: Standing, link: Link, word: u32, input: &mut [u8])
    requires { (fields ≡ fields_of after.axis.parameters) × (after ≡ standing after.axis) × (length input.old ≡ input_octets fields.class4) }
    ensures { input.new ≡ input_by fields.class4 link word after.axis }
{
    if fields.class4 {
        class4::fill(fields, after, link, word, input);
    } else {
        put_number(input, after.position.0);
    }
}
