// The axis: a nameplate, its parameters, the shaft, and the offset by which presets shift the position (document 01, "The axis").
#![tactic(auto)]

mod position;
mod preset;
mod reading;

ghost use Rattle.std.specs.Prelude.{◌≡◌};
ghost use Rattle.axis.specs.{in_force_on, next_by, yielded};

use axis_shaft::Shaft;
use encoder::effect::{InForce, in_force};
use encoder::nameplate::Nameplate;
use encoder::parameters::Parameters;
use encoder::refusal::{Refusal, refuse};
use ring::between;

#[derive(Clone, Copy, PartialEq, Eq)]
pub struct Axis {
    pub nameplate: Nameplate,
    pub parameters: Parameters,
    // place and last reading
    pub shaft: Shaft,
    // what presets have added to the position
    pub offset: i64,
    // the last preset
    pub preset: i64,
    // the held preset value
    pub stored: i64,
}

// The answer of a call: the next axis, or the axis as it was beside the refusal. A refused start, too, leaves a record.
#[derive(Clone, Copy, PartialEq, Eq)]
pub struct Next {
    pub axis: Axis,
    pub refusal: Option<Refusal>,
}

impl Axis {
    // What is in force. A record outside its limits gets 16.
    pub fn rules(self) -> Result<InForce, Refusal>
        ensures { result ≡ in_force_on self }
    {
        let Ok(rules) = in_force(self.nameplate, self.parameters) else {
            return Err(Refusal::NoAxis);
        };
        let span = rules.span.0;
        let offset = between(self.offset, span);
        let preset = between(self.preset, span);
        let stored = between(self.stored, span);
        let within = self.shaft.inside(rules) & offset & preset & stored;
        refuse(!within, Refusal::NoAxis)?;
        Ok(rules)
    }
}

impl Next {
    // The axis that a call yields, where it was taken.
    pub fn taken(self) -> Result<Axis, Refusal>
        ensures { result ≡ yielded self.refusal self.axis }
    {
        match self.refusal {
            None => Ok(self.axis),
            Some(refusal) => Err(refusal),
        }
    }

    // The answer by the axis that a call on `axis` yields.
    pub fn of(axis: Axis, yielded: Result<Axis, Refusal>) -> Next
        ensures { result ≡ next_by axis yielded }
    {
        match yielded {
            Ok(axis) => Next {
                axis,
                refusal: None,
            },
            Err(refusal) => Next {
                axis,
                refusal: Some(refusal),
            },
        }
    }
}
