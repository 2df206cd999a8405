// Start and reading (document 01, "The axis", rules 1 to 4). The crate axis_shaft moves the place.
ghost use Rattle.std.specs.Prelude.{◌≡◌};
ghost use Rattle.encoder.specs.{rules_of, fields_of};
ghost use Rattle.sensor.specs.{raw_of};
ghost use Rattle.axis_shaft.specs.{started, shaft_refusal};
ghost use Rattle.axis.specs.{Ready, yielded, begun_by, start_refusal, start, start_raw_refusal, start_raw, at_raw, read_raw_refusal, read_raw, read_refusal, read};

use crate::{Axis, Next};
use axis_shaft::Shaft;
use encoder::effect::{InForce, in_force};
use encoder::nameplate::Nameplate;
use encoder::parameters::Parameters;
use encoder::quantity::{Steps, Turns};
use encoder::refusal::Refusal;
use sensor::raw_number;

impl Axis {
    // Starts an axis at a first reading. A refused start leaves a record that gets 16 from every call.
    pub fn start(plate: Nameplate, parameters: Parameters, step: Steps, turn: Turns) -> Next
        ensures { result ≡ start plate parameters step.0 turn.0 }
    {
        Axis::begun(plate, parameters, first(plate, parameters, step, turn))
    }

    // Starts an axis at the raw number of a first reading.
    pub fn start_raw(plate: Nameplate, parameters: Parameters, raw: u32) -> Next
        ensures { result ≡ start_raw plate parameters raw }
    {
        Axis::begun(plate, parameters, first_raw(plate, parameters, raw))
    }

    // The axis at its first reading, without offset and presets.
    fn begun(nameplate: Nameplate, parameters: Parameters, first: Result<Shaft, Refusal>) -> Next
        ensures { result ≡ begun_by nameplate parameters first }
    {
        let (shaft, refusal) = match first {
            Ok(shaft) => (shaft, None),
            Err(refusal) => (Shaft::NOWHERE, Some(refusal)),
        };
        let axis = Axis {
            nameplate,
            parameters,
            shaft,
            offset: 0,
            preset: 0,
            stored: 0,
        };
        Next { axis, refusal }
    }

    // A new reading, by step and turn.
    pub fn read(self, step: Steps, turn: Turns) -> Next
        ensures { result ≡ read self step.0 turn.0 }
    {
        Next::of(self, self.at(step, turn))
    }

    // A new reading, by its raw number.
    pub fn read_raw(self, raw: u32) -> Next
        ensures { result ≡ read_raw self raw }
    {
        Next::of(self, self.at_raw(raw))
    }

    // The axis after a new reading.
    fn at(self, step: Steps, turn: Turns) -> Result<Axis, Refusal>
        ensures { result ≡ yielded (read_refusal self step.0 turn.0) (at_raw self (raw_of self.nameplate step.0 turn.0)) }
    {
        let rules = self.rules()?;
        let raw = raw_number(self.nameplate, step, turn)?;
        self.moved(rules, raw)
    }

    fn at_raw(self, raw: u32) -> Result<Axis, Refusal>
        ensures { result ≡ yielded (read_raw_refusal self raw) (at_raw self raw) }
    {
        let rules = self.rules()?;
        self.moved(rules, raw)
    }

    // The same of an axis within its limits.
    fn moved(self, rules: InForce, raw: u32) -> Result<Axis, Refusal>
        requires { Ready self rules }
        ensures { result ≡ yielded (shaft_refusal rules self.shaft raw) (at_raw self raw) }
    {
        let shaft = self.shaft.moved(rules, raw)?;
        Ok(Axis { shaft, ..self })
    }
}

// The shaft at a first reading.
fn first(
    plate: Nameplate,
    parameters: Parameters,
    step: Steps,
    turn: Turns,
) -> Result<Shaft, Refusal>
    ensures { result ≡ yielded (start_refusal plate parameters step.0 turn.0) (started (rules_of plate (fields_of parameters)) (raw_of plate step.0 turn.0)) }
{
    let rules = in_force(plate, parameters)?;
    let raw = raw_number(plate, step, turn)?;
    Shaft::begin(rules, raw)
}

fn first_raw(plate: Nameplate, parameters: Parameters, raw: u32) -> Result<Shaft, Refusal>
    ensures { result ≡ yielded (start_raw_refusal plate parameters raw) (started (rules_of plate (fields_of parameters)) raw) }
{
    let rules = in_force(plate, parameters)?;
    Shaft::begin(rules, raw)
}
