// What a line of a script asks for. Variants and places are plain numbers here: any number may be written, and the study refuses what it does not have.
ghost use Rattle.std.specs.Prelude.{Some};
ghost use Rattle.text.specs.Written.{spaced};
ghost use Rattle.script.specs.Written.{model_words};

use event::Start;
use std::fmt;

// The calendar of a study.
#[derive(Clone, Copy, PartialEq, Eq, Debug)]
pub enum CalendarKind {
    Heap,
    Buckets,
}

// A model, by the numbers that it is made of.
#[derive(Clone, Copy, PartialEq, Eq, Debug)]
pub enum ModelSize {
    Collection {
        farms: u8,
        tankers: u8,
    },
    Phold {
        places: u8,
        seed: u32,
        replication: u8,
    },
}

impl fmt::Display for ModelSize {
    ghost output = { λ size. Some (spaced (model_words size)) };

    fn fmt<W: fmt::Write>(&self, f: &mut fmt::Formatter<W>) -> fmt::Result {
        match self {
            ModelSize::Collection { farms, tankers } => write!(f, "collection {farms} {tankers}"),
            ModelSize::Phold {
                places,
                seed,
                replication,
            } => write!(f, "phold {places} {seed} {replication}"),
        }
    }
}

#[derive(Clone, Copy, PartialEq, Eq, Debug)]
pub enum Command {
    // the calendar of the study that the next model makes
    Calendar(CalendarKind),
    Model(ModelSize),
    // one more starting message
    Start(Start),
    Load { end: u32 },
    Step { count: u32 },
    Branch { variant: u8 },
    Decide { variant: u8, place: u8, order: u32 },
    Waive { variant: u8 },
    Retire { variant: u8 },
    Events { variant: u8 },
    Entry { variant: u8, position: u32 },
    Journal { variant: u8 },
    Place { variant: u8, place: u8 },
    Next { variant: u8 },
    Shares { variant: u8, other: u8, place: u8 },
    Group { variant: u8, place: u8 },
    Totals,
}
