// What is wrong with a line of a script.
ghost use Rattle.std.specs.Prelude.{◌≡◌, Some};
ghost use Rattle.script.specs.declared.flaw.Flaw.TheVariants.{Word};
ghost use Rattle.script.specs.Flaws.{wording};

use std::error::Error;
use std::fmt;
use text::WordFlaw;

#[derive(Clone, Copy, PartialEq, Eq, Debug)]
pub enum Flaw {
    // no command, calendar or model has this name
    UnknownWord,
    // the words are too few or too many, or a number is none or does not fit its field
    Word(WordFlaw),
}

impl From<WordFlaw> for Flaw {
    ghost from_gives = { λ word flaw. flaw ≡ Word word };

    fn from(word: WordFlaw) -> Flaw {
        Flaw::Word(word)
    }
}

impl fmt::Display for Flaw {
    ghost output = { λ flaw. Some (wording flaw) };

    fn fmt<W: fmt::Write>(&self, f: &mut fmt::Formatter<W>) -> fmt::Result {
        match self {
            Flaw::UnknownWord => write!(f, "a word is unknown"),
            Flaw::Word(flaw) => write!(f, "{flaw}"),
        }
    }
}

impl Error for Flaw {}
