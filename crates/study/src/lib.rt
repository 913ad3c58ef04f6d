// A study: one collection day that runs in up to sixteen variants at once, over any calendar and any model.
// A place is worked once for all variants that share its copy.
#![tactic(auto)]

mod branching;
mod crowding;
pub mod fault;
mod heads;
mod limits;
mod loading;
mod making;
pub mod permit;
mod posting;
mod reading;
mod register;
mod stepping;

ghost use Rattle.std.specs.Prelude.{◌≡◌, vec_capacity};

use calendar::Held;
use copies::Copies;
use journal::Journal;
use register::Register;

// Its calls go by the number of a variant and of a place, 0 or above.
#[derive(Drop)]
pub struct Study<C, M> {
    calendar: C,
    model: M,
    register: Register,
    copies: Copies,
    journal: Journal,
    // the messages that a step runs; they are for one variant or more each, so there are sixteen at most
    heads: Vec<Held>,
    ghost roomy: { vec_capacity heads ≡ 16 },
}
