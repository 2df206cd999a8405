// The axis of a log, and what a form does to it (document 01, "The program axislog").
#![tactic(auto)]

ghost use Rattle.std.specs.Prelude.{◌≡◌};
ghost use Rattle.encoder.specs.{refusal_on};
ghost use Rattle.axis.specs.{yielded};
ghost use Rattle.axislog_state.specs.{empty, unstarted, plate_of, parameters_of, position_answer, refused, taken, ready, read, preset, reply, reply_by};

use axis::{Axis, Next};
use axis_shaft::Shaft;
use axislog_answers::Answer;
use axislog_forms::{Form, Setup};
use encoder::nameplate::Nameplate;
use encoder::parameters::Parameters;
use encoder::quantity::Units;
use encoder::refusal::Refusal;

#[derive(Clone, Copy, PartialEq, Eq)]
pub enum Stage {
    // no axis form was accepted yet
    NoAxis,
    // an axis form was accepted, but no reading yet
    Waiting,
    Started,
}

// Before its first reading an axis has a nameplate and parameters only. Its record stands in every stage: what is claimed of logs reads it.
#[derive(Clone, Copy, PartialEq, Eq)]
pub struct State {
    pub stage: Stage,
    pub axis: Axis,
}

#[derive(Clone, Copy, PartialEq, Eq)]
pub struct Reply {
    pub state: State,
    pub answer: Answer,
}

impl State {
    // Before the first line.
    pub fn empty() -> State
        ensures { result ≡ empty }
    {
        State::unstarted(
            Stage::NoAxis,
            Setup {
                steps: 0,
                turns: 0,
                reversed: false,
                scaling: false,
                units: 0,
                range: 0,
            },
        )
    }

    // What a form does to the axis, and its answer. A line that is no form is refused, and what is refused keeps the axis as it was.
    pub fn reply(self, form: Option<Form>) -> Reply
        ensures { result ≡ reply self form }
    {
        self.accepted(form)
            .unwrap_or_else(|refusal| self.refused(refusal))
    }

    // The reply to a form that is accepted.
    fn accepted(self, form: Option<Form>) -> Result<Reply, Refusal>
        ensures { reply_by self result ≡ reply self form }
    {
        match form.ok_or(Refusal::NoForm)? {
            Form::Axis(setup) => set_up(setup),
            Form::Read(raw) => self.read(raw),
            Form::Preset(value) => self.preset(value),
        }
    }

    fn read(self, raw: u32) -> Result<Reply, Refusal>
        ensures { reply_by self result ≡ read self raw }
    {
        let axis = self.axis;
        match self.stage {
            Stage::NoAxis => Err(Refusal::NoAxis),
            Stage::Waiting => after(Axis::start_raw(axis.nameplate, axis.parameters, raw)),
            Stage::Started => after(axis.read_raw(raw)),
        }
    }

    // Presets are absolute.
    fn preset(self, value: i64) -> Result<Reply, Refusal>
        ensures { reply_by self result ≡ preset self value }
    {
        match self.stage {
            Stage::NoAxis | Stage::Waiting => Err(Refusal::NoAxis),
            Stage::Started => after(self.axis.preset(value, false)),
        }
    }

    fn refused(self, refusal: Refusal) -> Reply
        ensures { result ≡ refused self refusal }
    {
        Reply {
            state: self,
            answer: Answer::Refused(refusal.number()),
        }
    }

    // An axis without a reading.
    fn unstarted(stage: Stage, setup: Setup) -> State
        ensures { result ≡ unstarted stage setup }
    {
        let axis = Axis {
            nameplate: Nameplate::plain(setup.steps, setup.turns, 0),
            parameters: parameters(setup),
            shaft: Shaft::NOWHERE,
            offset: 0,
            preset: 0,
            stored: 0,
        };
        State { stage, axis }
    }
}

// An accepted axis form leaves an axis that waits for its first reading.
fn set_up(setup: Setup) -> Result<Reply, Refusal>
    ensures { result ≡ yielded (refusal_on (plate_of setup) (parameters_of setup)) (ready setup) }
{
    let state = State::unstarted(Stage::Waiting, setup);
    state.axis.parameters.check(state.axis.nameplate)?;
    Ok(Reply {
        state,
        answer: Answer::Ready,
    })
}

// The reply after a call on the axis that is accepted.
fn after(next: Next) -> Result<Reply, Refusal>
    ensures { result ≡ yielded next.refusal (taken next.axis) }
{
    let axis = next.taken()?;
    Ok(Reply {
        state: State {
            stage: Stage::Started,
            axis,
        },
        answer: position_answer(axis),
    })
}

// Class 2 is on.
fn parameters(setup: Setup) -> Parameters
    ensures { result ≡ parameters_of setup }
{
    Parameters::Class2 {
        operating: setup.scaling as u8 * 8 + 2 + setup.reversed as u8,
        units: Units(setup.units),
        range: Units(setup.range),
    }
}

// The position of an axis.
fn position_answer(axis: Axis) -> Answer
    ensures { result ≡ position_answer axis }
{
    match axis.position() {
        Ok(reported) => Answer::At(reported.position.0),
        // never: an accepted call leaves the axis within its limits
        Err(refusal) => Answer::Refused(refusal.number()),
    }
}
