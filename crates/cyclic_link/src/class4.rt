// Class 4: the bits of G1_STW, and G1_ZSW.
ghost use Rattle.std.specs.Prelude.{◌≡◌};
ghost use Rattle.cyclic_link.specs.Class4 as Class4;

use crate::{Link, Preset, Reaction};
use encoder::effect::InForce;
use octets::bit;

// Bits of G1_STW.
const ACKNOWLEDGE: u32 = 15;

const PARK: u32 = 14;

const PRESET: u32 = 12;

const RELATIVE: u32 = 11;

// The codes of errors: the cycle was faulty; the master's sign of life has failed.
pub(crate) const SENSOR_FAULT: u32 = 0x0001;

pub(crate) const LIFE_FAULT: u32 = 0x0f02;

// The code that is held, 0 for none. An error stays, with its code, until it is acknowledged in a cycle with neither cause.
fn code(link: Link, stopped: bool, faulty: bool, parked: bool, acknowledges: bool) -> u32
    ensures { result ≡ Class4.code_by link stopped faulty parked acknowledges }
{
    if link.acknowledged & !acknowledges & !(faulty | stopped) {
        return 0;
    }
    if link.error {
        return link.code;
    }
    if faulty & !parked {
        return SENSOR_FAULT;
    }
    if stopped { LIFE_FAULT } else { 0 }
}

// The next link, and the preset of the held preset value. The link is that once this cycle is counted.
pub(crate) fn react(
    link: Link,
    stopped: bool,
    rules: InForce,
    faulty: bool,
    word: u32,
    stored: i64,
) -> Reaction
    ensures { result ≡ Class4.reaction rules link stopped faulty word stored }
{
    let acknowledges = bit(word, ACKNOWLEDGE);
    let requested = bit(word, PRESET);
    let code = code(link, stopped, faulty, bit(word, PARK), acknowledges);
    let error = code != 0;
    let made = !link.requested & requested & rules.enabled & !error & !faulty;
    let next = Link {
        faulty,
        requested,
        error,
        acknowledged: error & acknowledges,
        executed: requested & (made | link.executed),
        due: link.due,
        counter: link.counter,
        expected: link.expected,
        code,
    };
    let preset = Preset {
        value: stored,
        relative: bit(word, RELATIVE),
    };
    Reaction {
        link: next,
        preset: made.then_some(preset),
    }
}

// G1_ZSW, by the link that the cycle leaves.
pub fn zsw(link: Link, word: u32) -> u32
    ensures { result ≡ Class4.zsw link word }
{
    let parked = bit(word, PARK);
    let high = (link.error as u32) << 15 | (parked as u32) << 14 | (!link.error as u32) << 13;
    high | (link.executed as u32) << 12 | (link.acknowledged as u32) << 11
}
