// A line of an axis log, read as a form (document 01, "The program axislog"). Positions in a line are counted from 0.
#![tactic(auto)]

ghost use Rattle.std.specs.Prelude.{◌≡◌};
ghost use Rattle.axislog_forms.specs.{form, read, preset, axis, sequence, scale};

use axislog_lexer::number::{labelled, last};
use axislog_lexer::word::{ends, past};

// What an axis form says. Without a scale form scaling is off, and both its numbers are 0; a caller may bring any two, so that they are no Option.
#[derive(Clone, Copy, PartialEq, Eq)]
pub struct Setup {
    pub steps: u32,
    pub turns: u32,
    // positions rise counter-clockwise
    pub reversed: bool,
    pub scaling: bool,
    pub units: u32,
    pub range: u32,
}

#[derive(Clone, Copy, PartialEq, Eq)]
pub enum Form {
    Axis(Setup),
    Read(u32),
    Preset(i64),
}

// The form of a line without its newline, if it is one.
pub fn parse(line: &[u8]) -> Option<Form>
    ensures { result ≡ form line.now }
{
    if let Some(at) = past(line, 0, b"(read ") {
        return read(line, at);
    }
    if let Some(at) = past(line, 0, b"(preset ") {
        return preset(line, at);
    }
    axis(line)
}

fn read(line: &[u8], at: usize) -> Option<Form>
    ensures { result ≡ read at line.now }
{
    let raw = last(line, at, b")")?;
    Some(Form::Read(raw.value))
}

// -0 is no number.
fn preset(line: &[u8], at: usize) -> Option<Form>
    ensures { result ≡ preset at line.now }
{
    if let Some(behind) = past(line, at, b"-") {
        let value = last(line, behind, b")")?.value;
        if value == 0 {
            return None;
        }
        return Some(Form::Preset(-i64::from(value)));
    }
    let number = last(line, at, b")")?;
    Some(Form::Preset(i64::from(number.value)))
}

fn axis(line: &[u8]) -> Option<Form>
    ensures { result ≡ axis line.now }
{
    let steps = labelled(line, 0, b"(axis (steps ")?;
    let turns = labelled(line, steps.next, b") (turns ")?;
    sequence(line, turns.next, steps.value, turns.value)
}

fn sequence(line: &[u8], at: usize, steps: u32, turns: u32) -> Option<Form>
    ensures { result ≡ sequence at line.now steps turns }
{
    let word = past(line, at, b") (sequence ")?;
    if let Some(next) = past(line, word, b"cw)") {
        return scale(line, next, steps, turns, false);
    }
    let next = past(line, word, b"ccw)")?;
    scale(line, next, steps, turns, true)
}

fn scale(line: &[u8], at: usize, steps: u32, turns: u32, reversed: bool) -> Option<Form>
    ensures { result ≡ scale at line.now steps turns reversed }
{
    if ends(line, at, b")") {
        return Some(Form::Axis(Setup {
            steps,
            turns,
            reversed,
            scaling: false,
            units: 0,
            range: 0,
        }));
    }
    let units = labelled(line, at, b" (scale ")?;
    let behind = past(line, units.next, b" ")?;
    let range = last(line, behind, b"))")?;
    Some(Form::Axis(Setup {
        steps,
        turns,
        reversed,
        scaling: true,
        units: units.value,
        range: range.value,
    }))
}
