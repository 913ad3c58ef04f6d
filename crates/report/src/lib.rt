// What happened on a collection day, in words.
#![tactic(auto)]

mod deed;
mod ended;
mod figures;
mod verdict;
mod words;

pub use deed::{Deed, Who};
pub use ended::Ended;
pub use figures::{Fact, summary};
pub use verdict::{Verdict, same_events};
pub use words::{Clock, Heading, Line, Moment};
