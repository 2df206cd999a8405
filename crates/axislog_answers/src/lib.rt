// The answers of axislog, and the line that each is printed as (document 01, "The program axislog").
#![tactic(auto)]

ghost use Rattle.std.specs.Prelude.{◌≡◌, ◌+◌, ◌≤◌};
ghost use Rattle.std.specs.Prelude.{length};
ghost use Rattle.axislog_answers.specs.{decimal, number_form, line, held};

use itoa::Buffer;

#[derive(Clone, Copy, PartialEq, Eq)]
pub enum Answer {
    // an axis awaits its first reading
    Ready,
    // the position
    At(u32),
    // the number of the refusal; any octet may be given, so that it is no Refusal
    Refused(u8),
}

// A line with its newline; the octets behind it are 0. There is no heap, so that an array holds it. The longest answer is a position of ten digits.
#[derive(Clone, Copy, PartialEq, Eq)]
pub struct Line {
    pub octets: [u8; 16],
    pub length: usize,
}

impl Answer {
    pub fn line(self) -> Line
        ensures { result ≡ line self }
    {
        match self {
            Answer::Ready => fixed(b"(axis ready)\n"),
            Answer::At(position) => numbered(b"(at ", position),
            Answer::Refused(n) => numbered(b"(refused ", n as u32),
        }
    }
}

// A text as it stands.
fn fixed(text: &[u8]) -> Line
    requires { length text.now ≤ 16 }
    ensures { result ≡ held text.now }
{
    let mut octets = [0u8; 16];
    let length = text.len();
    octets[..length].copy_from_slice(text);
    Line { octets, length }
}

// A form of a word and a number.
fn numbered(word: &[u8], n: u32) -> Line
    requires { length word.now + length (decimal n) ≤ 14 }
    ensures { result ≡ held (number_form word.now n) }
{
    let mut octets = [0u8; 16];
    let mut buffer = Buffer::new();
    let digits = buffer.format(n).as_bytes();
    let a = word.len();
    let b = a + digits.len();
    let length = b + 2;
    octets[..a].copy_from_slice(word);
    octets[a..b].copy_from_slice(digits);
    octets[b..length].copy_from_slice(b")\n");
    Line { octets, length }
}
