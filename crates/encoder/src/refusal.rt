// The refusals, named with the trade's words, each with its number (document 01, "When a call is turned away").
ghost use Rattle.std.specs.Prelude.{◌≡◌};
ghost use Rattle.encoder.specs.{number, checked, when};

use std::error::Error;
use std::fmt;

#[derive(Clone, Copy, Debug, PartialEq, Eq)]
pub enum Refusal {
    // telegram not 17 octets, block not 11
    WrongLength = 1,
    // class 2 ident differs from the nameplate
    OtherIdent = 2,
    // a bit with one allowed state has the other
    ReservedBit = 3,
    // scaling in force, field 0 or above R
    RevolutionUnits = 4,
    // scaling in force, field below M or above M × T
    TotalRange = 5,
    // above 3
    SpeedUnit = 6,
    // R or T outside its limits
    WrongPlate = 7,
    // step at or above R
    WrongStep = 8,
    // turn at or above T, or raw number at or above C
    WrongTurn = 9,
    // difference exactly C / 2
    HalfRange = 10,
    // value not between -L and L, ends excluded
    WrongPreset = 11,
    // preset called or held value set, class bit 0
    ClassOff = 12,
    // a lent buffer or list not exactly of its length
    WrongBuffer = 13,
    // no time has passed
    NothingElapsed = 14,
    // line is no form, or too much input
    NoForm = 15,
    // no started axis, or a record outside its limits
    NoAxis = 16,
    // sign-of-life limit 0 while block bit 5 is 0
    LifeLimit = 17,
}

impl Refusal {
    // The number of its row.
    pub fn number(self) -> u8
        ensures { result ≡ number self }
    {
        self as u8
    }
}

impl fmt::Display for Refusal {
    fn fmt<W: fmt::Write>(&self, f: &mut fmt::Formatter<W>) -> fmt::Result {
        write!(f, "refused {}", self.number())
    }
}

impl Error for Refusal {}

// Refuses where a test holds.
pub fn refuse(test: bool, refusal: Refusal) -> Result<(), Refusal>
    ensures { result ≡ checked (when test refusal) }
{
    if test { Err(refusal) } else { Ok(()) }
}
