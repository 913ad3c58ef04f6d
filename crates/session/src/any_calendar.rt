// A calendar of either kind, chosen as the program runs.
ghost use Rattle.std.specs.Prelude.{◌≡◌, [], MatchResult};
ghost use Rattle.calendar.specs.declared.fault.CalendarFault.TheVariants.{Memory};
ghost use Rattle.session.specs.Calendars.{contents_of, lawful_contents};

use bucket_calendar::store::BucketCalendar;
use calendar::fault::CalendarFault;
use calendar::{Calendar, Held};
use heap_calendar::store::HeapCalendar;
use script::CalendarKind;
use std::alloc::Global;

#[derive(Drop)]
pub enum AnyCalendar {
    Heap(HeapCalendar),
    Buckets(BucketCalendar),
}

impl AnyCalendar {
    // Reserves all its room; refuses want of memory.
    pub fn new(memory: Global, kind: CalendarKind) -> Result<AnyCalendar, CalendarFault>
        ensures { MatchResult result (λ s. contents_of s ≡ record { held = []; room = 512; puts = 0 }) (λ e. e ≡ Memory) }
    {
        match kind {
            CalendarKind::Heap => Ok(AnyCalendar::Heap(HeapCalendar::new(memory)?)),
            CalendarKind::Buckets => Ok(AnyCalendar::Buckets(BucketCalendar::new(memory)?)),
        }
    }
}

impl Calendar for AnyCalendar {
    ghost meaning = { contents_of };

    ghost lawful = { lawful_contents };

    fn put(&mut self, h: Held) -> Result<(), CalendarFault> {
        match self {
            AnyCalendar::Heap(calendar) => calendar.put(h),
            AnyCalendar::Buckets(calendar) => calendar.put(h),
        }
    }

    fn look(&self, i: usize) -> Option<Held> {
        match self {
            AnyCalendar::Heap(calendar) => calendar.look(i),
            AnyCalendar::Buckets(calendar) => calendar.look(i),
        }
    }

    fn heads(&self, out: &mut Vec<Held>) {
        match self {
            AnyCalendar::Heap(calendar) => calendar.heads(out),
            AnyCalendar::Buckets(calendar) => calendar.heads(out),
        }
    }

    fn take(&mut self) -> Option<Held> {
        match self {
            AnyCalendar::Heap(calendar) => calendar.take(),
            AnyCalendar::Buckets(calendar) => calendar.take(),
        }
    }

    fn peek(&self, v: u8, i: usize) -> Option<Held> {
        match self {
            AnyCalendar::Heap(calendar) => calendar.peek(v, i),
            AnyCalendar::Buckets(calendar) => calendar.peek(v, i),
        }
    }

    fn capacity(&self) -> usize {
        match self {
            AnyCalendar::Heap(calendar) => calendar.capacity(),
            AnyCalendar::Buckets(calendar) => calendar.capacity(),
        }
    }

    fn count(&self) -> usize {
        match self {
            AnyCalendar::Heap(calendar) => calendar.count(),
            AnyCalendar::Buckets(calendar) => calendar.count(),
        }
    }

    fn spread(&mut self, v: u8, c: u8) {
        match self {
            AnyCalendar::Heap(calendar) => calendar.spread(v, c),
            AnyCalendar::Buckets(calendar) => calendar.spread(v, c),
        }
    }

    fn erase(&mut self, v: u8) {
        match self {
            AnyCalendar::Heap(calendar) => calendar.erase(v),
            AnyCalendar::Buckets(calendar) => calendar.erase(v),
        }
    }

    fn empty(&mut self) {
        match self {
            AnyCalendar::Heap(calendar) => calendar.empty(),
            AnyCalendar::Buckets(calendar) => calendar.empty(),
        }
    }
}
