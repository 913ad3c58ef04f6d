// Why a day refuses a call.
ghost use Rattle.std.specs.Prelude.{◌≡◌, Some};
ghost use Rattle.day.specs.declared.fault.DayFault.TheVariants.{Memory};
ghost use Rattle.day.specs.declared.fault.Stop.TheVariants.{Refused};
ghost use Rattle.day.specs.Faults.{refusal_of, words_of_fault};

use refusal::{Layer, Refusal};
use std::alloc::AllocError;
use std::error::Error;
use std::fmt;

#[derive(Clone, Copy, PartialEq, Eq, Debug)]
pub enum DayFault {
    // no memory for the day that is made
    Memory,
    // the end of day is above 1,000,000
    End,
    // the starting message at this position names no place
    StartPlace(u32),
    // the starting message at this position is later than the end
    StartTime(u32),
    // the starting message at this position finds the calendar full
    StartRoom(u32),
    // an event finds no room for what it may send
    Room,
    // no such place
    Place,
    // an event finds the journal full
    Entries,
    // no such entry
    Entry,
}

impl From<AllocError> for DayFault {
    ghost from_gives = { λ _ r. r ≡ Memory };

    fn from(_e: AllocError) -> DayFault {
        Self::Memory
    }
}

impl From<DayFault> for Refusal {
    ghost from_gives = { λ f r. r ≡ refusal_of f };

    fn from(fault: DayFault) -> Refusal {
        let (number, layer, position) = match fault {
            DayFault::Memory => (0, Layer::Study, 0),
            DayFault::End => (4, Layer::Study, 0),
            DayFault::StartPlace(i) => (5, Layer::Study, i),
            DayFault::StartTime(i) => (6, Layer::Study, i),
            DayFault::StartRoom(i) => (7, Layer::Calendar, i),
            DayFault::Room => (7, Layer::Study, 0),
            DayFault::Place => (11, Layer::Study, 0),
            DayFault::Entries => (14, Layer::Study, 0),
            DayFault::Entry => (16, Layer::Study, 0),
        };
        Refusal {
            number,
            layer,
            position,
        }
    }
}

impl DayFault {
    // Why the day is refused, in plain words, as a text that costs no allocation and no failure.
    pub fn words(self) -> &'static str
        ensures { result.now ≡ words_of_fault self }
    {
        match self {
            DayFault::Memory => "there is no memory for the day",
            DayFault::End => "the end of day is above 1000000",
            DayFault::StartPlace(_) => "a starting message names no place",
            DayFault::StartTime(_) => "a starting message is later than the end of day",
            DayFault::StartRoom(_) => "there are more starting messages than the calendar holds",
            DayFault::Room => "the calendar has no room for what the next event may send",
            DayFault::Place => "there is no such place",
            DayFault::Entries => "the journal is full",
            DayFault::Entry => "there is no such entry",
        }
    }
}

impl fmt::Display for DayFault {
    ghost output = { λ f. Some (words_of_fault f) };

    fn fmt<W: fmt::Write>(&self, f: &mut fmt::Formatter<W>) -> fmt::Result {
        f.write_str(self.words())
    }
}

impl Error for DayFault {}

// What ends a day before its last event: it is refused, or telling of an event fails.
#[derive(Drop)]
pub enum Stop<E> {
    Refused(DayFault),
    Untold(E),
}

impl<E> From<DayFault> for Stop<E> {
    ghost from_gives = { λ fault stop. stop ≡ Refused fault };

    fn from(fault: DayFault) -> Stop<E> {
        Stop::Refused(fault)
    }
}
