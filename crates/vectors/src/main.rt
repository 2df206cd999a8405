// Runs the worked values of the papers, and values that were calculated independently. The file stdin has one vector a line; the file stdout has
// the same lines, each with its expected answer.
#![tactic(auto)]

mod answer;
mod bench;
mod call;
mod lent;
mod numbers;
mod vector;
mod word;

use crate::bench::Bench;
use input::fill;
use std::io;

// The octets that are read at the most.
const INPUT: usize = 262_144;

// What was read before a failed read counts.
fn main(rt: HostRuntime) -> io::Result<()> {
    let mut space = [0u8; INPUT];
    let n = fill(&mut rt.stdin(), &mut space).unwrap_or_else(|failed| failed.after);
    lines(&rt, &space[..n])
}

// A line works on the axis and the link that the line before left.
fn lines(rt: &impl Print, text: &[u8]) -> io::Result<()> {
    let mut bench = Bench::none();
    for ended in text.split_inclusive(|octet| *octet == b'\n') {
        let line = ended.strip_suffix(b"\n").unwrap_or(ended);
        vector::run(rt, &mut bench, line)?;
    }
    Ok(())
}
