// The four parts of the diagnosis, each in its own stretch of the buffer.
ghost use Rattle.std.specs.Prelude.{◌≡◌, length};
ghost use Rattle.encoder.specs.{fields_of};
ghost use Rattle.axis.specs.{Ready};
ghost use Rattle.diagnosis.specs.{operating_octet, general, versions, four_numbers, values, identity};

use crate::size;
use axis::Axis;
use cyclic_link::Link;
use encoder::effect::InForce;
use encoder::nameplate::Nameplate;
use encoder::parameters::Fields;
use octets::put_number;
use ring::complement;

// Octets 7 to 16.
pub(crate) fn fill_general(fields: Fields, axis: Axis, link: Link, rules: InForce, part: &mut [u8])
    requires { Ready axis rules × (fields ≡ fields_of axis.parameters) × (length part.old ≡ 10) }
    ensures { part.new ≡ general axis link }
{
    let steps = axis.nameplate.steps.0;
    let turns = axis.nameplate.turns.0;
    put_number(&mut part[4..8], steps as u32);
    put_number(&mut part[8..10], turns);
    part[0] = size(rules);
    part[1] = link.faulty as u8;
    part[2] = operating_octet(fields);
    part[3] = (turns != 1) as u8;
}

// Octet 9: all bits of class 2, and bits 0, 1 and 3 of class 4.
fn operating_octet(fields: Fields) -> u8
    ensures { result ≡ operating_octet fields }
{
    if fields.class4 {
        return fields.operating & 0x0b;
    }
    fields.operating
}

// Octets 17 to 31.
pub(crate) fn fill_versions(plate: Nameplate, part: &mut [u8])
    requires { length part.old ≡ 15 }
    ensures { (part.new ≡ versions plate) × (length (versions plate) ≡ 15) }
{
    part[9..11].copy_from_slice(&plate.software);
    // 17 zero, 18 and 19 0001h; 20 to 23 zero, 24 and 25 0101h
    put_number(&mut part[0..3], 0x0001);
    put_number(&mut part[3..9], 0x0101);
    put_number(&mut part[11..15], 0xffff_ffff);
}

// Octets 32 to 47.
pub(crate) fn fill_values(axis: Axis, rules: InForce, part: &mut [u8])
    requires { Ready axis rules × (length part.old ≡ 16) }
    ensures { part.new ≡ values axis }
{
    let offset = complement(axis.offset);
    let preset = complement(axis.preset);
    put_four(offset, preset, rules.scale.0, rules.span.0, part);
}

fn put_four(first: u32, second: u32, third: u32, fourth: u32, part: &mut [u8])
    requires { length part.old ≡ 16 }
    ensures { part.new ≡ four_numbers first second third fourth }
{
    put_number(&mut part[0..4], first);
    put_number(&mut part[4..8], second);
    put_number(&mut part[8..12], third);
    put_number(&mut part[12..16], fourth);
}

// Octets 48 to 63.
pub(crate) fn fill_identity(plate: Nameplate, part: &mut [u8])
    requires { length part.old ≡ 16 }
    ensures { (part.new ≡ identity plate) × (length (identity plate) ≡ 16) }
{
    part[0..10].copy_from_slice(&plate.serial);
    put_number(&mut part[10..16], 0);
}
