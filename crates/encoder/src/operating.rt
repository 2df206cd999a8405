// The octet of operating parameters: octet 9 of a class 2 telegram, octet 1 of a class 4 block.
ghost use Rattle.std.specs.Prelude.{◌≡◌};
ghost use Rattle.encoder.specs.{class_on, scaling_on, reversed_by, reserved_wrong};

use octets::bit;

// The class is on.
pub(crate) fn class_on(octet: u8) -> bool
    ensures { result ≡ class_on octet }
{
    bit(octet as u32, 1)
}

// Scaling is in force.
pub(crate) fn scaling(octet: u8) -> bool
    ensures { result ≡ scaling_on octet }
{
    class_on(octet) & bit(octet as u32, 3)
}

// Positions rise counter-clockwise.
pub(crate) fn reversed(class4: bool, octet: u8) -> bool
    ensures { result ≡ reversed_by class4 octet }
{
    bit(octet as u32, 0) & (!class4 | class_on(octet))
}

// A bit with one allowed state has the other.
pub(crate) fn reserved(class4: bool, octet: u8) -> bool
    ensures { result ≡ reserved_wrong class4 octet }
{
    let o = octet as u32;
    let low = bit(o, 4) | bit(o, 5);
    let high = bit(o, 6) | bit(o, 7);
    (!class4 & low) | high
}
