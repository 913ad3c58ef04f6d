// A day that runs alone, and the room that it reserves.
ghost use Rattle.std.specs.Prelude.{ℕ, ◌*◌, ◌<◌, ◌≤◌, vec_len, vec_capacity, slice_index_or};
ghost use Rattle.event.specs.Keys.{blank};
ghost use Rattle.day.specs.Blank.{blank_place};

use crate::place::Place;
use event::Message;
use model::Model;

// The most places that a model has.
pub(crate) const CELLS: usize = 32;

// The most entries that a journal has.
pub(crate) const ENTRIES: usize = 2048;

// The messages that wait, of which there is room for as many as the capacity says.
#[derive(Drop)]
pub(crate) struct Waiting {
    pub(crate) capacity: u16,
    pub(crate) end: u32,
    // in the order of their keys; no map, which allocates at each insertion: a day allocates nothing once it is made
    pub(crate) messages: Vec<Message>,
    ghost room: { capacity ≤ vec_capacity messages },
    ghost ended: { end ≤ 1000000 },
    ghost timely: { (i : ℕ) → (slice_index_or messages.items i blank).time ≤ end },
    ghost placed: { (i : ℕ) → (slice_index_or messages.items i blank).receiver < 32 },
}

// One day of a model: its places, what waits, and what has run.
// That it is the day run alone, and tidy, stands in the contracts: a ghost field that cites the model's meaning would give every definition that names a LoneDay one more argument.
#[derive(Drop)]
pub struct LoneDay<M> {
    pub(crate) model: M,
    pub(crate) cells: [Place; CELLS],
    pub(crate) waiting: Waiting,
    pub(crate) journal: Vec<Message>,
    ghost room: { 2048 ≤ vec_capacity journal },
    ghost short: { vec_len journal ≤ 2048 },
    ghost counted: { (i : ℕ) → (slice_index_or cells i blank_place).sent ≤ 2 * vec_len journal },
}
