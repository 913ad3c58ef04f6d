// Why a study refuses a call.
ghost use Rattle.std.specs.Prelude.{◌≡◌, Some};
ghost use Rattle.study.specs.declared.fault.StartFault.TheVariants.{Calendar as of_calendar};
ghost use Rattle.study.specs.declared.fault.StudyFault.TheVariants.{Memory, Calendar};
ghost use Rattle.study.specs.Faults.{own as own_refusal, refusal_of, start_refusal_of, words_of_fault};

use calendar::fault::CalendarFault;
use refusal::{Layer, Refusal};
use std::alloc::AllocError;
use std::error::Error;
use std::fmt;

// Why a starting message is refused.
#[derive(Clone, Copy, PartialEq, Eq, Debug)]
pub enum StartFault {
    // it names no place
    Place,
    // it is later than the end of day
    Time,
    // the calendar would not hold it
    Calendar(CalendarFault),
}

impl From<CalendarFault> for StartFault {
    ghost from_gives = { λ fault f. f ≡ of_calendar fault };

    fn from(fault: CalendarFault) -> StartFault {
        StartFault::Calendar(fault)
    }
}

#[derive(Clone, Copy, PartialEq, Eq, Debug)]
pub enum StudyFault {
    // no memory for the study that is made
    Memory,
    // the calendar that it is made of refuses
    Calendar(CalendarFault),
    // nothing is loaded
    NotLoaded,
    // a day is loaded
    Loaded,
    // the end of day is above 1,000,000
    End,
    // the starting message at this position is refused
    Start { position: u32, fault: StartFault },
    // a step finds no room for what it may send
    Room,
    // no live variant has that number
    Variant,
    // the variant is undecided
    Undecided,
    // no undecided variant has the permit's number
    Permit,
    // no such place
    Place,
    // sixteen variants were made
    Made,
    // the variant is the last live one
    Last,
    // a step would leave too many entries
    Entries,
    // a step or an order would leave too many copies
    Copies,
    // no such entry
    Entry,
}

impl From<CalendarFault> for StudyFault {
    ghost from_gives = { λ fault f. f ≡ Calendar fault };

    fn from(fault: CalendarFault) -> StudyFault {
        StudyFault::Calendar(fault)
    }
}

impl From<AllocError> for StudyFault {
    ghost from_gives = { λ _ f. f ≡ Memory };

    fn from(_error: AllocError) -> StudyFault {
        StudyFault::Memory
    }
}

// A refusal of the study's own, of nothing that has a position.
fn own(number: u8) -> Refusal
    ensures { result ≡ own_refusal number }
{
    Refusal {
        number,
        layer: Layer::Study,
        position: 0,
    }
}

// The refusal of the starting message at this position.
fn start_refusal(position: u32, fault: StartFault) -> Refusal
    ensures { result ≡ start_refusal_of position fault }
{
    match fault {
        StartFault::Place => Refusal { position, ..own(5) },
        StartFault::Time => Refusal { position, ..own(6) },
        StartFault::Calendar(fault) => Refusal {
            position,
            ..fault.into()
        },
    }
}

impl From<StudyFault> for Refusal {
    ghost from_gives = { λ fault r. r ≡ refusal_of fault };

    fn from(fault: StudyFault) -> Refusal {
        match fault {
            StudyFault::Memory => own(0),
            StudyFault::Calendar(fault) => fault.into(),
            StudyFault::NotLoaded => own(2),
            StudyFault::Loaded => own(3),
            StudyFault::End => own(4),
            StudyFault::Start { position, fault } => start_refusal(position, fault),
            StudyFault::Room => own(7),
            StudyFault::Variant => own(8),
            StudyFault::Undecided => own(9),
            StudyFault::Permit => own(10),
            StudyFault::Place => own(11),
            StudyFault::Made => own(12),
            StudyFault::Last => own(13),
            StudyFault::Entries => own(14),
            StudyFault::Copies => own(15),
            StudyFault::Entry => own(16),
        }
    }
}

impl StudyFault {
    // Why the call is refused, in plain words, as a text that costs no allocation and no failure.
    pub fn words(self) -> &'static str
        ensures { result.now ≡ words_of_fault self }
    {
        match self {
            StudyFault::Memory => "there is no memory for the study",
            StudyFault::Calendar(_) => "there is no memory for the calendar",
            StudyFault::NotLoaded => "nothing is loaded",
            StudyFault::Loaded => "a day is loaded already",
            StudyFault::End => "the end of day is above 1000000",
            StudyFault::Start { fault, .. } => match fault {
                StartFault::Place => "a starting message names no place",
                StartFault::Time => "a starting message is later than the end of day",
                StartFault::Calendar(_) => {
                    "there are more starting messages than the calendar holds"
                }
            },
            StudyFault::Room => "the calendar has no room for what the next step may send",
            StudyFault::Variant => "there is no such live variant",
            StudyFault::Undecided => "the variant is undecided",
            StudyFault::Permit => "no undecided variant has the permit's number",
            StudyFault::Place => "there is no such place",
            StudyFault::Made => "sixteen variants were made",
            StudyFault::Last => "the variant is the last live one",
            StudyFault::Entries => "the step would leave too many entries",
            StudyFault::Copies => "there would be too many copies",
            StudyFault::Entry => "there is no such entry",
        }
    }
}

impl fmt::Display for StudyFault {
    ghost output = { λ fault. Some (words_of_fault fault) };

    fn fmt<W: fmt::Write>(&self, f: &mut fmt::Formatter<W>) -> fmt::Result {
        f.write_str(self.words())
    }
}

impl Error for StudyFault {}
