// The day run alone, for any model.
#![tactic(auto)]

mod fault;
mod lone;
mod making;
mod place;
mod reading;
mod running;
mod telling;
mod waiting;

pub use fault::{DayFault, Stop};
pub use lone::LoneDay;
pub use place::{Place, Ran};
