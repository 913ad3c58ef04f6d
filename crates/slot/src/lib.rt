// Slots: held messages with the age of their put, their order, and the choice among them.
#![tactic(auto)]

pub mod order;
pub mod pick;

use calendar::Held;

// What is held, and how many puts were before it.
#[derive(Clone, Copy, PartialEq, Eq, Debug)]
pub struct Slot {
    pub held: Held,
    pub age: u32,
}
