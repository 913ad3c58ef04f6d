// What is wrong with a day file, and on which line.
ghost use Rattle.std.specs.Prelude.{◌≡◌, Some};
ghost use Rattle.dayfile.specs.declared.flaw.FlawKind.TheVariants.{Word};
ghost use Rattle.dayfile.specs.Flaws.{wording, message};

use std::error::Error;
use std::fmt;
use text::WordFlaw;

#[derive(Clone, Copy, PartialEq, Eq, Debug)]
pub enum FlawKind {
    // a line begins with none of the five words
    UnknownWord,
    // the words of a line are too few or too many, or a number is none or out of its range
    Word(WordFlaw),
    // another word stands between litres and time
    AtMissing,
    // another word stands behind the number of events
    EventsMissing,
    // another word stands behind "events"
    TryMissing,
    // the farm to try is none that a word names
    UnknownPreference,
    GivenTwice,
    MilkedBeforeFarms,
    // the missing are told at the line after the last
    FarmsMissing,
    TankersMissing,
    EndMissing,
    // no flaw of the file: the reader ran out of memory
    NoMemory,
}

// The first flaw of a file. Lines count from 1.
#[derive(Clone, Copy, PartialEq, Eq, Debug)]
pub struct Flaw {
    pub line: usize,
    pub kind: FlawKind,
}

impl From<WordFlaw> for FlawKind {
    ghost from_gives = { λ flaw kind. kind ≡ Word flaw };

    fn from(flaw: WordFlaw) -> FlawKind {
        FlawKind::Word(flaw)
    }
}

impl FlawKind {
    // A flaw of this kind on a line.
    pub(crate) fn at(self, line: usize) -> Flaw
        ensures { (result.line ≡ line) × (result.kind ≡ self) }
    {
        Flaw { line, kind: self }
    }

    // What is wrong, in plain words, as a text that costs no allocation and no failure.
    pub fn words(self) -> &'static str
        ensures { result.now ≡ wording self }
    {
        match self {
            FlawKind::UnknownWord =>
                "the first word is none of farms, tankers, end, milked and after",
            FlawKind::Word(flaw) => flaw.words(),
            FlawKind::AtMissing => "\"at\" is missing between litres and time",
            FlawKind::EventsMissing => "\"events\" is missing behind the number",
            FlawKind::TryMissing => "\"try\" is missing behind events",
            FlawKind::UnknownPreference =>
                "the farm to try is none of nearest, farthest and smallest",
            FlawKind::GivenTwice => "this was given on an earlier line",
            FlawKind::MilkedBeforeFarms => "farms has to be given before the first milked",
            FlawKind::FarmsMissing => "farms is missing",
            FlawKind::TankersMissing => "tankers is missing",
            FlawKind::EndMissing => "end is missing",
            FlawKind::NoMemory => "out of memory",
        }
    }
}

impl fmt::Display for FlawKind {
    ghost output = { λ kind. Some (wording kind) };

    fn fmt<W: fmt::Write>(&self, f: &mut fmt::Formatter<W>) -> fmt::Result {
        f.write_str(self.words())
    }
}

impl fmt::Display for Flaw {
    ghost output = { λ flaw. Some (message flaw) };

    fn fmt<W: fmt::Write>(&self, f: &mut fmt::Formatter<W>) -> fmt::Result {
        write!(f, "line {}: {}", self.line, self.kind)
    }
}

impl Error for Flaw {}
