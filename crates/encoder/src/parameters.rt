// The parameters of both classes, kept as sent, and their refusals (document 01, "Class 2 telegram" and "Class 4 block").
ghost use Rattle.std.specs.Prelude.{◌≡◌};
ghost use Rattle.encoder.specs.{checked, fields_of, sign_of_life, fields_refusal, refusal_on};

use crate::nameplate::Nameplate;
use crate::operating::{reserved, scaling};
use crate::quantity::Units;
use crate::refusal::{Refusal, refuse};
use octets::bit;

// A bit of the block's first octet. While it is 0, the control expects profile version 3.1.
const COMPATIBLE: u32 = 5;

#[derive(Clone, Copy, PartialEq, Eq)]
pub enum Parameters {
    // Octet 9, revolution units, total range.
    Class2 {
        operating: u8,
        units: Units,
        range: Units,
    },
    // Octet 1, revolution units, total range, sign-of-life limit, speed unit.
    Class4 {
        operating: u8,
        units: Units,
        range: Units,
        life: u8,
        speed: u8,
    },
}

// The fields that the rules use, of either class.
#[derive(Clone, Copy, PartialEq, Eq)]
pub struct Fields {
    pub class4: bool,
    pub operating: u8,
    pub units: Units,
    pub range: Units,
    pub life: u8,
    pub speed: u8,
}

impl Parameters {
    // Refuses parameters that a nameplate does not take, and a nameplate outside its limits.
    pub fn check(self, plate: Nameplate) -> Result<(), Refusal>
        ensures { result ≡ checked (refusal_on plate self) }
    {
        plate.check()?;
        self.fields().check(plate)
    }

    // The fields that the rules use.
    pub fn fields(self) -> Fields
        ensures { result ≡ fields_of self }
    {
        match self {
            Parameters::Class2 {
                operating,
                units,
                range,
            } => Fields {
                class4: false,
                operating,
                units,
                range,
                life: 0,
                speed: 0,
            },
            Parameters::Class4 {
                operating,
                units,
                range,
                life,
                speed,
            } => Fields {
                class4: true,
                operating,
                units,
                range,
                life,
                speed,
            },
        }
    }
}

impl Fields {
    // There is a sign of life: class 4 with block bit 5 at 0 (request 3).
    pub fn sign_of_life(self) -> bool
        ensures { result ≡ sign_of_life self }
    {
        self.class4 & !bit(self.operating as u32, COMPATIBLE)
    }

    // Refuses fields that rows 3 to 6 and 17 turn away, on a nameplate within its limits.
    fn check(self, plate: Nameplate) -> Result<(), Refusal>
        ensures { result ≡ checked (fields_refusal plate self) }
    {
        let steps = plate.steps.0;
        let units = self.units.0 as u64;
        let range = self.range.0 as u64;
        let scaling = scaling(self.operating);
        let most = units * plate.turns.0 as u64;
        let units_outside = (units == 0) | (steps < units);
        let range_outside = (range < units) | (most < range);
        let no_limit = self.sign_of_life() & (self.life == 0);
        refuse(reserved(self.class4, self.operating), Refusal::ReservedBit)?;
        refuse(scaling & units_outside, Refusal::RevolutionUnits)?;
        refuse(scaling & range_outside, Refusal::TotalRange)?;
        refuse(3 < self.speed, Refusal::SpeedUnit)?;
        refuse(no_limit, Refusal::LifeLimit)
    }
}
