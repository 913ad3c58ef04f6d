// Whether a variant has a place of its own, and why.
ghost use Rattle.std.specs.Prelude.{◌≡◌};
ghost use Rattle.sheet.specs.Standings.{cause_in, giver_of, is_parting_of};

use report::Line;

// Why a variant has a place of its own.
#[derive(Clone, Copy)]
pub enum Cause {
    // nothing has parted it: the day as planned
    Plan,
    // the order that the variant was given stands there
    Order,
    // the place ran an event of this variant, number 1 being the first of its day, and another variant did not
    Event {
        variant: u8,
        number: usize,
        line: Line,
    },
}

// How a place of a variant stands to the smaller variants.
#[derive(Clone, Copy)]
pub enum Standing {
    // it is shared with this one, the smallest
    TakenOver { from: u8 },
    Own(Cause),
}

impl Standing {
    // From which variant the place is taken over, if from one.
    pub fn giver(&self) -> Option<u8>
        ensures { result ≡ giver_of self.now }
    {
        match self {
            Standing::TakenOver { from } => Some(*from),
            Standing::Own(_) => None,
        }
    }
}

// A place of a variant has parted from those of all smaller variants.
#[derive(Clone, Copy)]
pub struct Parting {
    pub variant: u8,
    pub place: u8,
    pub cause: Cause,
}

impl Parting {
    fn is_of(&self, variant: u8, place: u8) -> bool
        ensures { result ≡ is_parting_of variant place self.now }
    {
        self.variant == variant && self.place == place
    }
}

// What has parted the place of the variant, by the first of these partings that is of it; the plan where none is.
pub fn cause_of(partings: &[Parting], variant: u8, place: u8) -> Cause
    ensures { result ≡ cause_in partings.now variant place }
{
    partings
        .iter()
        .find(|parting| parting.is_of(variant, place))
        .map_or(Cause::Plan, |parting| parting.cause)
}
