// The kinds of message of a collection day, and their numbers.
ghost use Rattle.std.specs.Prelude.{◌≡◌};
ghost use Rattle.collection.specs.Kinds.{number_of, Numbered};

#[derive(Clone, Copy, PartialEq, Eq, Debug)]
pub enum Kind {
    // milk is there, its litres the data
    Milked,
    // a farm waits for a tanker
    Ready,
    // a tanker waits for a farm
    Free,
    // a tanker is sent to the farm in the data
    Go,
    // a tanker stands at the farm
    Pump,
    // the tanker has its load, the data
    Loaded,
    // a tanker stands at the bay with the load in the data
    Unload,
    // the tanker is empty again
    Emptied,
}

// A number that no kind has.
#[derive(Clone, Copy, PartialEq, Eq, Debug)]
pub struct UnknownKind(pub u8);

impl From<Kind> for u8 {
    ghost from_gives = { λ kind n. n ≡ number_of kind };

    fn from(kind: Kind) -> u8 {
        kind as u8
    }
}

impl TryFrom<u8> for Kind {
    type Error = UnknownKind;

    ghost try_from_gives = { Numbered };

    fn try_from(number: u8) -> Result<Kind, UnknownKind> {
        match number {
            0 => Ok(Kind::Milked),
            1 => Ok(Kind::Ready),
            2 => Ok(Kind::Free),
            3 => Ok(Kind::Go),
            4 => Ok(Kind::Pump),
            5 => Ok(Kind::Loaded),
            6 => Ok(Kind::Unload),
            7 => Ok(Kind::Emptied),
            _ => Err(UnknownKind(number)),
        }
    }
}
