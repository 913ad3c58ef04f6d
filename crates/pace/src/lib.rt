// Days on studies, for a measurement: what a program in another language calls, and what it is told.
#![tactic(auto)]

mod checksum;
mod exports;
mod plan;
mod running;
mod starts;

pub use exports::{pace_collection, pace_phold};
pub use plan::{Figures, Plan};
