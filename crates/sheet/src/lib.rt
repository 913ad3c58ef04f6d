// The sheet that compares the variants of a collection day: figures for the planner, and for the auditor why each may be trusted.
#![tactic(auto)]

mod difference;
mod row;
mod standing;
mod trial;
mod words;

pub use difference::Difference;
pub use row::{Row, rows};
pub use standing::{Cause, Parting, Standing, cause_of};
pub use trial::Trial;
pub use words::{Attempt, Cost, JournalLine, PlaceLine, Title, Untried};
