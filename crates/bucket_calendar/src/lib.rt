// A calendar of 512 messages in 64 buckets by time.
#![tactic(auto)]

mod buckets;
pub mod calendar_impl;
mod chains;
pub mod store;
