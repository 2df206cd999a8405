// Decimal numbers in a line: no leading zero, at most 4294967295.
ghost use Rattle.std.specs.Prelude.{◌≡◌, ◌≤◌};
ghost use Rattle.std.specs.Prelude.{length, drop};
ghost use Rattle.axislog_lexer.specs.{digit_of, digits, number, labelled, last};

use crate::word::{ends, past};

// A number, and where the line goes on after it.
#[derive(Clone, Copy, PartialEq, Eq)]
pub struct Decimal {
    pub value: u32,
    pub next: usize,
}

// The number after a word.
pub fn labelled(line: &[u8], at: usize, word: &[u8]) -> Option<Decimal>
    ensures { result ≡ labelled word.now at line.now }
{
    number(line, past(line, at, word)?)
}

// The number in front of the word that ends the line.
pub fn last(line: &[u8], at: usize, word: &[u8]) -> Option<Decimal>
    ensures { result ≡ last word.now at line.now }
{
    number(line, at).filter(|found| ends(line, found.next, word))
}

fn number(line: &[u8], at: usize) -> Option<Decimal>
    ensures { result ≡ number at (drop at line.now) }
{
    let first = digit(*line.get(at)?)?;
    digits(line, first, at + 1)
}

// The digits from `at` on; the digits before them have the value `value`. No digit follows a leading 0.
fn digits(line: &[u8], value: u32, at: usize) -> Option<Decimal>
    requires { at ≤ length line.now }
    ensures { result ≡ digits value at (drop at line.now) }
{
    let mut n = value;
    for k in at..line.len() {
        let Some(d) = digit(line[k]) else {
            return Some(Decimal { value: n, next: k });
        };
        if n == 0 {
            return None;
        }
        n = n.checked_mul(10)?.checked_add(d)?;
    }
    Some(Decimal {
        value: n,
        next: line.len(),
    })
}

// The value of a digit.
fn digit(octet: u8) -> Option<u32>
    ensures { result ≡ digit_of octet }
{
    if octet.is_ascii_digit() {
        Some(u32::from(octet - b'0'))
    } else {
        None
    }
}
