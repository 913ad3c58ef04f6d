// The word that begins a line, and the word that names the farm to try.
ghost use Rattle.std.specs.Prelude.{◌≡◌};
ghost use Rattle.dayfile.specs.Words.{keyword_of, preference_of};

use crate::flaw::FlawKind;
use collection::Preference;
use std::str;

#[derive(Clone, Copy)]
pub(crate) enum Keyword {
    Farms,
    Tankers,
    End,
    Milked,
    After,
}

impl TryFrom<&[u8]> for Keyword {
    type Error = FlawKind;

    ghost try_from_gives = { λ word r. r ≡ keyword_of word.now };

    fn try_from(word: &[u8]) -> Result<Keyword, FlawKind> {
        let text = str::from_utf8(word).map_err(|_| FlawKind::UnknownWord)?;
        match text {
            "farms" => Ok(Keyword::Farms),
            "tankers" => Ok(Keyword::Tankers),
            "end" => Ok(Keyword::End),
            "milked" => Ok(Keyword::Milked),
            "after" => Ok(Keyword::After),
            _ => Err(FlawKind::UnknownWord),
        }
    }
}

// The preference that a word names.
pub(crate) fn preference(word: &[u8]) -> Result<Preference, FlawKind>
    ensures { result ≡ preference_of word.now }
{
    let text = str::from_utf8(word).map_err(|_| FlawKind::UnknownPreference)?;
    match text {
        "nearest" => Ok(Preference::Nearest),
        "farthest" => Ok(Preference::Farthest),
        "smallest" => Ok(Preference::Smallest),
        _ => Err(FlawKind::UnknownPreference),
    }
}
