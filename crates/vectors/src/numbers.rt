// Numbers of a line, one after the other.
ghost use Rattle.std.specs.Prelude.{◌<◌, ◌≤◌, IfSome};
ghost use Rattle.input.specs.{Counts};

// What is left of a line.
#[derive(Clone, Copy)]
pub(crate) struct Numbers<'a> {
    rest: &'a [u8],
}

impl<'a> Numbers<'a> {
    pub(crate) fn of(line: &'a [u8]) -> Numbers<'a> {
        Numbers { rest: line }
    }

    // The next decimal number: its last 32 bits. Where no digit stands it is 0.
    pub(crate) fn decimal(&mut self) -> u32 {
        self.pass_blanks();
        last_32_bits(self.number(10))
    }

    // The same, of up to 56 bits.
    pub(crate) fn long(&mut self) -> u64 {
        self.pass_blanks();
        self.number(10)
    }

    // The same as decimal, with or without a minus.
    pub(crate) fn signed(&mut self) -> i64 {
        self.pass_blanks();
        match self.rest.strip_prefix(b"-") {
            Some(rest) => {
                self.rest = rest;
                -i64::from(last_32_bits(self.number(10)))
            }
            None => i64::from(last_32_bits(self.number(10))),
        }
    }

    // The next hexadecimal number: its last 32 bits.
    pub(crate) fn hexadecimal(&mut self) -> u32 {
        self.pass_blanks();
        last_32_bits(self.number(16))
    }

    // The next hexadecimal number: its last 8 bits.
    pub(crate) fn octet(&mut self) -> u8 {
        (self.hexadecimal() % 256) as u8
    }

    // Writes the numbers that are left to the front of out, each as `next` takes it, and answers how many there are.
    pub(crate) fn fill<T: Copy, F: Fn(&mut Numbers<'a>) -> T>(
        &mut self,
        out: &mut [T],
        next: F,
    ) -> usize
        requires { F.IsAlwaysCallable next }
        ensures { Counts result out.new }
    {
        for (n, place) in out.iter_mut().enumerate() {
            self.pass_blanks();
            if self.rest.is_empty() {
                return n;
            }
            *place = next(self);
        }
        out.len()
    }

    fn pass_blanks(&mut self) {
        while let Some(rest) = self.rest.strip_prefix(b" ") {
            self.rest = rest;
        }
    }

    // The number that begins here. Before each further digit it is cut to its last 56 bits.
    fn number(&mut self, base: u64) -> u64
        requires { base ≤ 16 }
    {
        let mut value = 0;
        while let Some((c, rest)) = self.rest.split_first() {
            let Some(d) = digit(*c).filter(|d| *d < base) else {
                break;
            };
            value = value % 0x100_0000_0000_0000 * base + d;
            self.rest = rest;
        }
        value
    }
}

fn last_32_bits(number: u64) -> u32 {
    (number % 0x1_0000_0000) as u32
}

// What a digit stands for.
fn digit(c: u8) -> Option<u64>
    ensures { IfSome result (λ d. d < 16) }
{
    match c {
        b'0'..=b'9' => Some(u64::from(c - b'0')),
        b'a'..=b'f' => Some(u64::from(c - b'a') + 10),
        _ => None,
    }
}
