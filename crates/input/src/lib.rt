// An input, read into a buffer.
#![tactic(auto)]

ghost use Rattle.input.specs.{Filled, Within};

use std::io::Read;

// A read failed after so many octets.
#[derive(Clone, Copy, Debug, PartialEq, Eq)]
pub struct ReadFailed {
    pub after: usize,
}

// Reads until the input ends, a read fails or the buffer is full, and answers how many octets stand at the start of the buffer.
pub fn fill<R: Read>(input: &mut R, buffer: &mut [u8]) -> Result<usize, ReadFailed>
    ensures within { Within result buffer.new }
    ensures filled { Filled (R.remaining input.old) (R.remaining input.new) result buffer.new }
{
    let mut n = 0;
    // how far a read gets shows only behind it, so that no `for` fits
    while n < buffer.len() {
        match input.read(&mut buffer[n..]) {
            Ok(0) => return Ok(n),
            Ok(more) => n += more,
            Err(_) => return Err(ReadFailed { after: n }),
        }
    }
    Ok(n)
}

#[cfg(test)]
mod tests {
    use super::*;
    use std::io;
    use std::io::ErrorKind;
    use std::test::Fail;

    // Gives one octet a read, and fails after so many.
    #[derive(Drop)]
    struct Failing {
        left: u8,
    }

    impl Read for Failing {
        fn read(&mut self, buffer: &mut [u8]) -> io::Result<usize> {
            if self.left == 0 || buffer.is_empty() {
                return Err(io::Error::from(ErrorKind::Other));
            }
            self.left -= 1;
            buffer[0] = self.left;
            Ok(1)
        }
    }

    #[test]
    fn short_input(rt: HostRuntime) -> Result<(), Fail> {
        let mut buffer = [7u8; 5];
        assert_eq!(rt; fill(&mut b"abc".as_slice(), &mut buffer), Ok(3));
        assert_eq!(rt; buffer, *b"abc\x07\x07");
        Ok(())
    }

    #[test]
    fn long_input(rt: HostRuntime) -> Result<(), Fail> {
        let mut buffer = [7u8; 2];
        assert_eq!(rt; fill(&mut b"abc".as_slice(), &mut buffer), Ok(2));
        assert_eq!(rt; buffer, *b"ab");
        Ok(())
    }

    #[test]
    fn failed_read(rt: HostRuntime) -> Result<(), Fail> {
        let mut buffer = [7u8; 5];
        let mut input = Failing { left: 3 };
        assert_eq!(rt; fill(&mut input, &mut buffer), Err(ReadFailed { after: 3 }));
        assert_eq!(rt; buffer, [2, 1, 0, 7, 7]);
        Ok(())
    }
}
