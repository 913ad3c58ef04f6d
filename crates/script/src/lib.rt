// Replay scripts, one command a line, and the lines that are printed in answer:
//
//     model collection 3 1
//     start 0 2 0 1000          # time, place, kind, data
//     load 3000
//     step 7
//
// specs/Commands.antt has the whole form of a line, specs/Answers.antt what is printed. What a command asks for is no concern of this crate.
#![tactic(auto)]

mod answer;
mod command;
mod flaw;
mod keyword;
mod reading;

pub use answer::Answer;
pub use command::{CalendarKind, Command, ModelSize};
pub use flaw::Flaw;
pub use reading::read_line;
