// A calendar of 512 messages in a binary heap by key and age.
#![tactic(auto)]

pub mod calendar_impl;
mod entry;
mod heads;
mod pick;
mod queue;
mod root;
mod sift;
pub mod store;
