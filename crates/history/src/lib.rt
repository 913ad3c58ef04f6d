// Histories: any calls of a study, one after the other, over any calendar and any model, and what is promised of them all.
#![tactic(auto)]

mod answer;
mod call;
mod caller;
mod replying;
mod running;

pub use answer::Answer;
pub use call::Call;
pub use caller::Caller;
pub use running::{Ended, Unmade, carry_out, history, waive_all};
