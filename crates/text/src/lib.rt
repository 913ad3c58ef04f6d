// A text in its parts, lines and words, and the numbers that words write: what the readers of every written format share.
#![tactic(auto)]

mod flaw;
mod number;
mod parts;

pub use flaw::WordFlaw;
pub use number::parse_number;
pub use parts::{Lines, Words};
