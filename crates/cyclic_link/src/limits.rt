// The limits of a link that is brought (request 3).
ghost use Rattle.std.specs.Prelude.{◌≡◌};
ghost use Rattle.encoder.specs.{checked};
ghost use Rattle.cyclic_link.specs.{code_within, link_refusal};

use crate::class4::{LIFE_FAULT, SENSOR_FAULT};
use crate::{Life, Link};
use encoder::refusal::{Refusal, refuse};

impl Link {
    // Refuses a link outside its limits, on an axis with this sign of life.
    pub fn check(self, life: Life) -> Result<(), Refusal>
        ensures { result ≡ checked (link_refusal life self) }
    {
        let counter = (self.counter == 0) | (life.on & (self.counter <= life.stop));
        let within = counter & (self.expected <= 15) & self.code_within(life);
        refuse(!within, Refusal::NoAxis)
    }

    // The code is 0 just when no error is held, and one of the two where one is.
    fn code_within(self, life: Life) -> bool
        ensures { result ≡ code_within life self }
    {
        if self.error {
            return (self.code == SENSOR_FAULT) | (life.on & (self.code == LIFE_FAULT));
        }
        self.code == 0
    }
}
