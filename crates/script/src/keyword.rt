// The words that name commands, calendars and models.
ghost use Rattle.std.specs.Prelude.{◌≡◌};
ghost use Rattle.script.specs.Keywords.{keyword_of, calendar_of, model_of};

use crate::command::CalendarKind;
use crate::flaw::Flaw;
use std::str;

// The word that begins a line.
#[derive(Clone, Copy)]
pub(crate) enum Keyword {
    Calendar,
    Model,
    Start,
    Load,
    Step,
    Branch,
    Decide,
    Waive,
    Retire,
    Events,
    Entry,
    Journal,
    Place,
    Next,
    Shares,
    Group,
    Totals,
}

// The word that names a model.
#[derive(Clone, Copy)]
pub(crate) enum ModelKind {
    Collection,
    Phold,
}

impl TryFrom<&[u8]> for Keyword {
    type Error = Flaw;

    ghost try_from_gives = { λ word r. r ≡ keyword_of word.now };

    fn try_from(word: &[u8]) -> Result<Keyword, Flaw> {
        let text = str::from_utf8(word).map_err(|_| Flaw::UnknownWord)?;
        match text {
            "calendar" => Ok(Keyword::Calendar),
            "model" => Ok(Keyword::Model),
            "start" => Ok(Keyword::Start),
            "load" => Ok(Keyword::Load),
            "step" => Ok(Keyword::Step),
            "branch" => Ok(Keyword::Branch),
            "decide" => Ok(Keyword::Decide),
            "waive" => Ok(Keyword::Waive),
            "retire" => Ok(Keyword::Retire),
            "events" => Ok(Keyword::Events),
            "entry" => Ok(Keyword::Entry),
            "journal" => Ok(Keyword::Journal),
            "place" => Ok(Keyword::Place),
            "next" => Ok(Keyword::Next),
            "shares" => Ok(Keyword::Shares),
            "group" => Ok(Keyword::Group),
            "totals" => Ok(Keyword::Totals),
            _ => Err(Flaw::UnknownWord),
        }
    }
}

impl TryFrom<&[u8]> for CalendarKind {
    type Error = Flaw;

    ghost try_from_gives = { λ word r. r ≡ calendar_of word.now };

    fn try_from(word: &[u8]) -> Result<CalendarKind, Flaw> {
        let text = str::from_utf8(word).map_err(|_| Flaw::UnknownWord)?;
        match text {
            "heap" => Ok(CalendarKind::Heap),
            "buckets" => Ok(CalendarKind::Buckets),
            _ => Err(Flaw::UnknownWord),
        }
    }
}

impl TryFrom<&[u8]> for ModelKind {
    type Error = Flaw;

    ghost try_from_gives = { λ word r. r ≡ model_of word.now };

    fn try_from(word: &[u8]) -> Result<ModelKind, Flaw> {
        let text = str::from_utf8(word).map_err(|_| Flaw::UnknownWord)?;
        match text {
            "collection" => Ok(ModelKind::Collection),
            "phold" => Ok(ModelKind::Phold),
            _ => Err(Flaw::UnknownWord),
        }
    }
}
