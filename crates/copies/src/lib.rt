// Which copy of a place each variant has, in 128 cells, and what every cell holds.
#![tactic(auto)]

mod below;
mod counting;
mod free;
pub mod heads;
mod names;
mod sharers;
mod store;

pub use store::Copies;
