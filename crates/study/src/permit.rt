// The permit of a new variant.
ghost use Rattle.std.specs.Prelude.{ℕ, ◌≡◌};

use crate::fault::StudyFault;
use std::marker::Model;

// The right to give a new variant one order, or none. It is no value that can be let go: `decide` or `waive` must take it.
pub struct Permit {
    pub(crate) variant: u8,
}

// Callers see the number of the variant.
impl Model for Permit {
    ghost Value = { ℕ };

    ghost view = { λ permit. permit.variant };
}

impl Permit {
    // The number of the variant that it was given for.
    pub fn variant(&self) -> u8
        ensures { result ≡ self.now }
    {
        self.variant
    }
}

// A denied order: the permit is handed back, with the reason.
pub struct Denied {
    pub permit: Permit,
    pub fault: StudyFault,
}
