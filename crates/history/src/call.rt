// A call of a study, as data.
use event::Start;

#[derive(PartialEq, Eq, Debug, Drop)]
pub enum Call {
    Load { starts: Vec<Start>, end: u32 },
    Step,
    Branch { variant: u8 },
    // with the permit that is held under this number
    Decide { variant: u8, place: u8, order: u32 },
    // the permit that is held under this number
    Waive { variant: u8 },
    Retire { variant: u8 },
    Events { variant: u8 },
    Entry { variant: u8, position: usize },
    Place { variant: u8, place: u8 },
    Next { variant: u8 },
    Shares { variant: u8, other: u8, place: u8 },
    Group { variant: u8, place: u8 },
    Totals,
}
