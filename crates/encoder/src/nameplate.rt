// The nameplate of a device (document 01, "Plate and reading").
ghost use Rattle.std.specs.Prelude.{◌≡◌, ◌≤◌, ◌^◌, None};
ghost use Rattle.encoder.specs.{checked, plate_refusal, buffer_refusal, capacity_of, plain_plate};

use crate::quantity::{Steps, Turns};
use crate::refusal::{Refusal, refuse};

#[derive(Clone, Copy, PartialEq, Eq)]
pub struct Nameplate {
    // R, per turn
    pub steps: Steps,
    // T
    pub turns: Turns,
    pub ident: u16,
    pub software: [u8; 2],
    pub serial: [u8; 10],
}

impl Nameplate {
    // A nameplate of R, T and ident. The other fields are zero.
    pub fn plain(steps: u32, turns: u32, ident: u16) -> Nameplate
        ensures { result ≡ plain_plate steps turns ident }
    {
        Nameplate {
            steps: Steps(steps as u64),
            turns: Turns(turns),
            ident,
            software: [0; 2],
            serial: [0; 10],
        }
    }

    // Refuses a nameplate with R or T outside its limits.
    pub fn check(self) -> Result<(), Refusal>
        ensures { result ≡ checked (plate_refusal self) }
    {
        let steps = self.steps.0;
        let turns = self.turns.0;
        let within = (2 <= steps) & (steps <= 65536) & (1 <= turns) & (turns <= 32768);
        refuse(!within, Refusal::WrongPlate)
    }

    // The first refusals of a call that fills a lent buffer or list of a due length.
    pub fn check_buffer(self, size: usize, due: usize) -> Result<(), Refusal>
        ensures { result ≡ checked (buffer_refusal self size due None) }
    {
        self.check()?;
        refuse(size != due, Refusal::WrongBuffer)
    }

    // C, the steps of all turns.
    pub(crate) fn capacity(self) -> Steps
        requires { plate_refusal self ≡ None }
        ensures { (result.0 ≡ capacity_of self) × (result.0 ≤ 2 ^ 31) }
    {
        Steps(self.steps.0 * self.turns.0 as u64)
    }
}
