// A calendar in a binary heap, and its making.
ghost use Rattle.std.specs.Prelude.{◌≡◌, ℕ, ◌+◌, ◌≤◌, [], vec_capacity, MatchResult};
ghost use Rattle.calendar.specs.declared.fault.CalendarFault.TheVariants.{Memory};

use crate::queue::Queue;
use calendar::Held;
use calendar::fault::CalendarFault;
use std::alloc::Global;

// How many messages it can hold.
pub const CAPACITY: usize = 512;

// `spare` has room for all, for a change of the groups: a heap changes no element in place, and nothing may allocate later.
#[derive(Drop)]
pub struct HeapCalendar {
    pub(crate) queue: Queue,
    pub(crate) spare: Vec<Held>,
    pub(crate) puts: u32,
    ghost roomier: { 512 ≤ vec_capacity spare },
    ghost few: { puts ≤ 1000000 },
    ghost aged: { queue.next ≤ 512 + puts },
}

impl HeapCalendar {
    // Reserves all its room; refuses want of memory.
    pub fn new(memory: Global) -> Result<HeapCalendar, CalendarFault>
        ensures { MatchResult result (λ s. (s.queue.held ≡ []) × (s.puts ≡ 0)) (λ e. e ≡ Memory) }
    {
        Ok(HeapCalendar {
            queue: Queue::new(memory)?,
            spare: Vec::with_capacity(memory, CAPACITY)?,
            puts: 0,
        })
    }
}
