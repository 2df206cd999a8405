// Octets and bits: one reader and one writer of numbers, the most significant octet first, and one test of a bit.
#![tactic(auto)]

ghost use Rattle.std.specs.Prelude.{◌≡◌, ◌%◌, ◌^◌, length};
ghost use Rattle.integer.specs.{big_endian, octets, bit};

// The number of the octets. Of more than four octets only the last four count.
pub fn number(part: &[u8]) -> u32
    ensures { result ≡ big_endian part.now % 2 ^ 32 }
{
    part.iter()
        .fold(0, |n, octet| n % 0x100_0000 * 256 + u32::from(*octet))
}

// Writes a number into the octets, with zeros in front. Fewer than four octets get its last octets.
pub fn put_number(part: &mut [u8], n: u32)
    ensures { part.new ≡ octets (length part.old) n }
{
    let mut rest = n;
    for i in (0..part.len()).rev() {
        part[i] = (rest % 256) as u8;
        rest = rest / 256;
    }
}

// Bit n of a word is 1.
pub fn bit(word: u32, n: u32) -> bool
    ensures { result ≡ bit n word }
{
    if 32 <= n {
        return false;
    }
    (word >> n) & 1 == 1
}
