// Class 2: bit 31 of the output asks for a preset of bits 0 to 30. One that cannot be made at once stays due while the bit is up
// (request 2).
ghost use Rattle.std.specs.Prelude.{◌≡◌, ◌<◌, ◌^◌};
ghost use Rattle.cyclic_link.specs.Class2 as Class2;

use crate::{Link, Preset, Reaction};
use encoder::effect::InForce;
use octets::bit;

const ASKED: u32 = 31;

const VALUE: u32 = 0x7fff_ffff;

// The value of the preset.
fn value(word: u32) -> u32
    ensures { (result ≡ Class2.value word) × (result < 2 ^ 31) }
{
    word & VALUE
}

// The next link, and the preset.
pub(crate) fn react(link: Link, rules: InForce, faulty: bool, word: u32) -> Reaction
    ensures { result ≡ Class2.reaction rules link faulty word }
{
    let requested = bit(word, ASKED);
    let value = value(word);
    let due = requested & (!link.requested | link.due);
    let made = due & rules.enabled & !faulty & (value < rules.span.0);
    let mut next = link;
    next.faulty = faulty;
    next.requested = requested;
    next.due = due & !made;
    let preset = Preset {
        value: value as i64,
        relative: false,
    };
    Reaction {
        link: next,
        preset: made.then_some(preset),
    }
}
