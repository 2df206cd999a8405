// The words of class 4, telegram 81 (document 01, "One cycle"): STW2_ENC and G1_STW out; ZSW2_ENC, G1_ZSW, G1_XIST1 and G1_XIST2 in.
ghost use Rattle.std.specs.Prelude.{◌≡◌, length};
ghost use Rattle.encoder.specs.{fields_of};
ghost use Rattle.cyclic.specs.{standing};
ghost use Rattle.cyclic.specs.Class4 as Class4;

use crate::standing::Standing;
use cyclic_link::class4::zsw;
use cyclic_link::{Control, Link};
use encoder::parameters::Fields;
use octets::{bit, number, put_number};

// A bit of STW2_ENC. While it is 0, G1_STW counts as 0.
const CONTROLLED: u32 = 10;

const ZSW2: u32 = 0x0200;

// A bit of the block's first octet. While it is 1, G1_XIST1 shows the unshifted position.
const UNSHIFTED: u32 = 2;

// What the control sends: G1_STW as counted, and the sign of life, which bit 10 has no part in.
pub(crate) fn control(output: &[u8]) -> Control
    requires { length output.now ≡ 4 }
    ensures { result ≡ Class4.control output.now }
{
    let stw2 = number(&output[0..2]);
    let sign = (stw2 >> 12) & 15;
    if bit(stw2, CONTROLLED) {
        return Control {
            word: number(&output[2..4]),
            sign,
        };
    }
    Control { word: 0, sign }
}

// G1_XIST1.
fn xist1(fields: Fields, after: Standing) -> u32
    requires { (fields ≡ fields_of after.axis.parameters) × (after ≡ standing after.axis) }
    ensures { result ≡ Class4.xist1 after.axis }
{
    if bit(fields.operating as u32, UNSHIFTED) {
        return after.unshifted.0;
    }
    after.position.0
}

// The input, filled after any preset.
pub(crate) fn fill(fields: Fields, after: Standing, link: Link, word: u32, input: &mut [u8])
    requires { (fields ≡ fields_of after.axis.parameters) × (after ≡ standing after.axis) × (length input.old ≡ 12) }
    ensures { input.new ≡ Class4.input link word after.axis }
{
    let zsw = zsw(link, word);
    let xist1 = xist1(fields, after);
    if link.error {
        put(zsw, xist1, link.code, input);
    } else {
        put(zsw, xist1, after.position.0, input);
    }
}

fn put(zsw: u32, xist1: u32, xist2: u32, input: &mut [u8])
    requires { length input.old ≡ 12 }
    ensures { input.new ≡ Class4.words zsw xist1 xist2 }
{
    put_number(&mut input[0..2], ZSW2);
    put_number(&mut input[2..4], zsw);
    put_number(&mut input[4..8], xist1);
    put_number(&mut input[8..12], xist2);
}
