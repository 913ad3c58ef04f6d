// Why a calendar refuses a call.
ghost use Rattle.std.specs.Prelude.{◌≡◌};
ghost use Rattle.calendar.specs.declared.fault.CalendarFault.TheVariants.{Memory};
ghost use Rattle.calendar.specs.Faults.{refusal_of};

use refusal::{Layer, Refusal};
use std::alloc::AllocError;

#[derive(Clone, Copy, PartialEq, Eq, Debug)]
pub enum CalendarFault {
    // no memory for the calendar that is made
    Memory,
    // a put finds the calendar full, or its puts used up
    Full,
}

impl From<CalendarFault> for Refusal {
    ghost from_gives = { λ f r. r ≡ refusal_of f };

    fn from(fault: CalendarFault) -> Refusal {
        let number = match fault {
            CalendarFault::Memory => 0,
            CalendarFault::Full => 7,
        };
        Refusal {
            number,
            layer: Layer::Calendar,
            position: 0,
        }
    }
}

impl From<AllocError> for CalendarFault {
    ghost from_gives = { λ _ r. r ≡ Memory };

    fn from(_e: AllocError) -> CalendarFault {
        Self::Memory
    }
}
