// The link record, and what a cycle of each class makes of it and of what the control sends (document 01, "One cycle"). The axis has no part in it.
#![tactic(auto)]

mod class2;
pub mod class4;
mod limits;
pub mod sign_of_life;

ghost use Rattle.std.specs.Prelude.{◌≡◌};
ghost use Rattle.cyclic_link.specs.{quiet, Classes.reaction};

use encoder::effect::InForce;
use sign_of_life::{at_stop, hear};

// What one cycle leaves for the next. Everything is 0 at the start.
#[derive(Clone, Copy, PartialEq, Eq)]
pub struct Link {
    // the last cycle was faulty
    pub faulty: bool,
    // the bit that asks for a preset, bit 31 or bit 12, as it was last counted
    pub requested: bool,
    // an error is held
    pub error: bool,
    // the control's acknowledge was seen
    pub acknowledged: bool,
    // a preset was executed, and its bit is still 1
    pub executed: bool,
    // bit 31 has risen and is still 1, and its preset has yet to be made (request 2)
    pub due: bool,
    // failures of the master's sign of life, and the value that is expected next, 0 before the start (request 3); numbers, since any link may be brought
    pub counter: u32,
    pub expected: u32,
    // the code of the held error, 0 for none (request 3)
    pub code: u32,
}

// Whether an axis has a sign of life, and where its failure counter stops (request 3). Any two may be brought, so that this is no Option.
#[derive(Clone, Copy, PartialEq, Eq)]
pub struct Life {
    pub on: bool,
    pub stop: u32,
}

// What the control sends.
#[derive(Clone, Copy, PartialEq, Eq)]
pub struct Control {
    // class 2: the output word; class 4: G1_STW as counted
    pub word: u32,
    // class 4: the master's sign of life, bits 12 to 15 of STW2_ENC
    pub sign: u32,
}

// A preset that a cycle makes.
#[derive(Clone, Copy, PartialEq, Eq)]
pub struct Preset {
    pub value: i64,
    pub relative: bool,
}

// What a cycle makes of what the control sends.
#[derive(Clone, Copy, PartialEq, Eq)]
pub struct Reaction {
    pub link: Link,
    pub preset: Option<Preset>,
}

// The cycle of either class. A preset of class 4 takes the held preset value.
pub fn react(
    class4: bool,
    life: Life,
    link: Link,
    rules: InForce,
    faulty: bool,
    control: Control,
    stored: i64,
) -> Reaction
    ensures { result ≡ reaction class4 life rules link faulty control stored }
{
    if class4 {
        let heard = hear(life, link, control.sign);
        let stopped = at_stop(life, heard);
        return class4::react(heard, stopped, rules, faulty, control.word, stored);
    }
    class2::react(link, rules, faulty, control.word)
}

impl Link {
    // Before the first cycle.
    pub fn quiet() -> Link
        ensures { result ≡ quiet }
    {
        Link {
            faulty: false,
            requested: false,
            error: false,
            acknowledged: false,
            executed: false,
            due: false,
            counter: 0,
            expected: 0,
            code: 0,
        }
    }
}
