// What is wrong with the words of a line, whatever the format.
ghost use Rattle.std.specs.Prelude.{◌≡◌, Some};
ghost use Rattle.text.specs.Flaws.{wording};

use std::fmt;

#[derive(Clone, Copy, PartialEq, Eq, Debug)]
pub enum WordFlaw {
    TooFewWords,
    TooManyWords,
    NotANumber,
    OutOfRange,
}

impl WordFlaw {
    // What is wrong, in plain words, as a text that costs no allocation and no failure.
    pub fn words(self) -> &'static str
        ensures { result.now ≡ wording self }
    {
        match self {
            WordFlaw::TooFewWords => "a word is missing at the end",
            WordFlaw::TooManyWords => "there is a word too many",
            WordFlaw::NotANumber => "a number is wanted, of decimal digits only",
            WordFlaw::OutOfRange => "a number is too small or too large",
        }
    }
}

impl fmt::Display for WordFlaw {
    ghost output = { λ flaw. Some (wording flaw) };

    fn fmt<W: fmt::Write>(&self, f: &mut fmt::Formatter<W>) -> fmt::Result {
        f.write_str(self.words())
    }
}
