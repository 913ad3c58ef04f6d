// The number that a word writes.
ghost use Rattle.std.specs.Prelude.{◌≡◌, ◌≤◌, true, false, IfOk, MatchOption};
ghost use Rattle.text.specs.Numbers.{is_number, number_of};

use crate::flaw::WordFlaw;
use std::str;

// The text of a word of decimal digits alone.
fn digits(word: &[u8]) -> Option<&str>
    ensures { MatchOption result (is_number word.now ≡ false) (λ text. (is_number word.now ≡ true) × (text.now ≡ word.now)) }
{
    if word.is_empty() || !word.iter().all(u8::is_ascii_digit) {
        return None;
    }
    str::from_utf8(word).ok()
}

// The number from `low` to `high` that a word writes. That it is at most `high` is what a caller's narrowing needs; a type for each bound would say no more.
pub fn parse_number(word: &[u8], low: u32, high: u32) -> Result<u32, WordFlaw>
    ensures value { result ≡ number_of low high word.now }
    ensures within { IfOk result (λ n. n ≤ high) }
{
    let digits = digits(word).ok_or(WordFlaw::NotANumber)?;
    match digits.parse::<u32>() {
        Ok(n) if low <= n && n <= high => Ok(n),
        _ => Err(WordFlaw::OutOfRange),
    }
}
