// axislog: a log on standard input, its answers on standard output (document 01, "The program axislog").
#![tactic(auto)]

use axislog_core::{INPUT, OUTPUT, answer};
use input::fill;
use std::io;
use std::process::ExitCode;

// The buffer for the log holds more than the longest one, so that the program notices a longer one.
const ROOM: usize = 65_536;

const _: () = prove!(INPUT < ROOM);

fn main(rt: HostRuntime) -> ExitCode {
    let mut input = [0u8; ROOM];
    let mut output = [0u8; OUTPUT];
    run(&rt, &mut input, &mut output)
}

// The whole arrays are lent first: their types tell their lengths.
fn run(rt: &HostRuntime, input: &mut [u8; ROOM], output: &mut [u8; OUTPUT]) -> ExitCode {
    match fill(&mut rt.stdin(), input) {
        Ok(n) => print(rt, &input[..n], output),
        Err(_) => complain(rt, "axislog: standard input cannot be read"),
    }
}

fn print(rt: &(impl Print + Eprint), input: &[u8], output: &mut [u8]) -> ExitCode {
    match emit(rt, input, output) {
        Ok(()) => ExitCode::SUCCESS,
        Err(_) => complain(rt, "axislog: standard output cannot be written"),
    }
}

fn emit(rt: &impl Print, input: &[u8], output: &mut [u8]) -> io::Result<()> {
    match answer(input, output) {
        Ok(n) => rt.write_all(&output[..n]),
        // 15: the log is too long. Not 13: the buffer has its length
        Err(_) => rt.write_all(b"(refused 15)\n"),
    }
}

// Where standard error cannot be written either, only the exit status tells.
fn complain(rt: &impl Eprint, message: &str) -> ExitCode {
    let _ = rt.eprintln(message);
    ExitCode::FAILURE
}
