// What axislog answers to a log (document 01, "The program axislog").
#![tactic(auto)]

ghost use Rattle.std.specs.Prelude.{◌≡◌, ◌++◌, ◌+◌, ◌≤◌, length, take};
ghost use Rattle.integer.specs.{over};
ghost use Rattle.encoder.specs.{checked};
ghost use Rattle.axislog_answers.specs.{text};
ghost use Rattle.axislog_core.specs.{answers, call_refusal, line_length, outcome, written};

use axislog_answers::Answer;
use axislog_forms::parse;
use axislog_state::State;
use encoder::refusal::{Refusal, refuse};

// The octets of the longest log that is answered.
pub const INPUT: usize = 60_000;

// The octets of the lent buffer. An empty line takes one octet and its answer thirteen; no line has a longer answer for each of its octets.
pub const OUTPUT: usize = 780_000;

// Answers a whole log, and yields how many octets the answers have. They begin at the start of the buffer, and what lies behind them is not touched.
// A refused call does not touch the buffer.
pub fn answer(input: &[u8], output: &mut [u8]) -> Result<usize, Refusal>
    ensures { (result ≡ outcome input.now output.old)
        × (output.new ≡ written input.now output.old) }
{
    check(input.len(), output.len())?;
    Ok(each_line(input, output))
}

// Refuses a log that is too long, and a lent buffer that has not its length.
fn check(input: usize, output: usize) -> Result<(), Refusal>
    ensures { result ≡ checked (call_refusal input output) }
{
    refuse(INPUT < input, Refusal::NoForm)?;
    refuse(output != OUTPUT, Refusal::WrongBuffer)
}

// The answers to all lines.
fn each_line(input: &[u8], output: &mut [u8]) -> usize
    requires { (length input.now ≤ 60000) × (length output.old ≡ 780000) }
    ensures { (result ≡ length (answers input.now))
        × (output.new ≡ over (answers input.now) output.old) }
{
    let mut state = State::empty();
    let mut at = 0;
    // each with its newline; the last one may have none
    for text in input.split_inclusive(|x| *x == b'\n') {
        let reply = state.reply(parse(without_newline(text)));
        at = put(reply.answer, output, at);
        state = reply.state;
    }
    at
}

// A line without its newline, which stands at the end if at all.
fn without_newline(text: &[u8]) -> &[u8]
    requires { length text.now ≤ line_length text.now + 1 }
    ensures { result.now ≡ take (line_length text.now) text.now }
{
    match text {
        [line @ .., b'\n'] => line,
        _ => text,
    }
}

// Writes the line of an answer, and answers where the next one begins.
fn put(answer: Answer, output: &mut [u8], at: usize) -> usize
    requires { at + length (text answer) ≤ length output.old }
    ensures { (result ≡ at + length (text answer))
        × (output.new ≡ over (take at output.old ++ text answer) output.old) }
{
    let line = answer.line();
    let end = at + line.length;
    output[at..end].copy_from_slice(&line.octets[..line.length]);
    end
}
