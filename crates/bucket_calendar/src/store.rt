// A calendar in buckets, and its making.
ghost use Rattle.std.specs.Prelude.{◌≡◌, ◌≤◌, [], MatchResult};
ghost use Rattle.calendar.specs.declared.fault.CalendarFault.TheVariants.{Memory};

use crate::buckets::Buckets;
use calendar::fault::CalendarFault;
use slot::Slot;
use std::alloc::Global;

// How many messages it can hold.
pub const CAPACITY: usize = 512;

#[derive(Drop)]
pub struct BucketCalendar {
    pub(crate) buckets: Buckets,
    ghost few: { buckets.puts ≤ 1000000 },
}

impl BucketCalendar {
    // Reserves all its room; refuses want of memory.
    pub fn new(memory: Global) -> Result<BucketCalendar, CalendarFault>
        ensures { MatchResult result (λ s. (s.buckets.held ≡ []) × (s.buckets.puts ≡ 0)) (λ e. e ≡ Memory) }
    {
        Ok(BucketCalendar {
            buckets: Buckets::new(memory)?,
        })
    }
}

// All its memory: the slots and the calendar itself.
const _: () = prove!(CAPACITY * size_of::<Slot>() + size_of::<BucketCalendar>() < 64 * 1024);
