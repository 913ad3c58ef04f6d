// A text in its parts: its lines, what a line says before its comment, its words.
ghost use Rattle.std.specs.Prelude.{◌≡◌, ◌≤◌, ℕ, Bool, IfOk};
ghost use Rattle.std.specs.Fn.{FnReturnsAt};
ghost use Rattle.std.specs.Iterator.{YieldsFirstRef, item_count};
ghost use Rattle.text.specs.declared.flaw.WordFlaw.TheVariants.{TooFewWords, TooManyWords};
ghost use Rattle.text.specs.Text.{blank, before, onward, said, lines_of, words_of};
ghost use Rattle.text.specs.Numbers.{number_of};
ghost use Rattle.text.specs.Reading.{next, ended, paired, behind};

use crate::flaw::WordFlaw;
use crate::number::parse_number;
use std::marker::Model;

fn is_blank(byte: &u8) -> bool
    ensures { result ≡ blank byte.now }
{
    matches!(*byte, b' ' | b'\t' | b'\r')
}

// What stands before the first byte that `is_mark` picks, and what begins with it.
fn cut<F: Fn(&u8) -> bool>(text: &[u8], is_mark: F) -> (&[u8], &[u8])
    requires { F.IsAlwaysCallable is_mark }
    ensures { (mark : ℕ → Bool) → ((c : ℕ) (b : Bool) → FnReturnsAt F.Fn is_mark c b → b ≡ mark c) → (result.0.now ≡ before mark text.now) × (result.1.now ≡ onward mark text.now) }
{
    let end = text.iter().position(is_mark).unwrap_or(text.len());
    text.split_at(end)
}

// The lines of a text that are still to come.
#[derive(Drop)]
pub struct Lines<'a> {
    rest: &'a [u8],
}

impl<'a> Model for Lines<'a> {
    ghost use Rattle.std.specs.Prelude.{ℕ, List};
    ghost use Rattle.text.specs.Text.{lines_of};

    ghost Value = { List (List ℕ) };

    ghost view = { λ a. lines_of a.rest.now };
}

impl<'a> Lines<'a> {
    // The lines of a text, each without its newline.
    pub fn of(text: &'a [u8]) -> Lines<'a>
        ensures { result ≡ lines_of text.now }
    {
        Lines { rest: text }
    }
}

impl<'a> Iterator for Lines<'a> {
    type Item = &'a [u8];

    ghost next_gives = { YieldsFirstRef (λ lines. lines) };

    ghost remaining = { item_count (λ lines. lines) };

    fn next(&mut self) -> Option<&'a [u8]> {
        if self.rest.is_empty() {
            return None;
        }
        let (line, end) = cut(self.rest, |byte| *byte == b'\n');
        // past the newline, which the last line may lack
        self.rest = end.get(1..).unwrap_or(end);
        Some(line)
    }
}

// The words of a line that are still to come.
#[derive(Drop)]
pub struct Words<'a> {
    rest: &'a [u8],
}

impl<'a> Model for Words<'a> {
    ghost use Rattle.std.specs.Prelude.{ℕ, List};
    ghost use Rattle.text.specs.Text.{words_of};

    ghost Value = { List (List ℕ) };

    ghost view = { λ a. words_of a.rest.now };
}

impl<'a> Words<'a> {
    // The words that a line says before its comment.
    pub fn of(line: &'a [u8]) -> Words<'a>
        ensures { result ≡ words_of (said line.now) }
    {
        let (rest, _) = cut(line, |byte| *byte == b'#');
        Words { rest }
    }

    // The next word as a number from `low` to `high`.
    pub fn number(&mut self, low: u32, high: u32) -> Result<u32, WordFlaw>
        ensures value { behind result self.new ≡ next TooFewWords (number_of low high) self.old paired }
        ensures within { IfOk result (λ n. n ≤ high) }
    {
        let word = self.next().ok_or(WordFlaw::TooFewWords)?;
        parse_number(word, low, high)
    }

    // What was read, where nothing more is said.
    pub fn end<T: Copy>(mut self, read: T) -> Result<T, WordFlaw>
        ensures { result ≡ ended TooManyWords read self.entry }
    {
        match self.next() {
            Some(_) => Err(WordFlaw::TooManyWords),
            None => Ok(read),
        }
    }
}

impl<'a> Iterator for Words<'a> {
    type Item = &'a [u8];

    ghost next_gives = { YieldsFirstRef (λ words. words) };

    ghost remaining = { item_count (λ words. words) };

    fn next(&mut self) -> Option<&'a [u8]> {
        let (_, from) = cut(self.rest, |byte| !is_blank(byte));
        if from.is_empty() {
            return None;
        }
        let (word, rest) = cut(from, is_blank);
        self.rest = rest;
        Some(word)
    }
}
