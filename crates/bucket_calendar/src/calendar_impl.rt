// The calls of a calendar in buckets.
ghost use Rattle.bucket_calendar.specs.Laws.{contents_of, lawful_contents};

use crate::store::{BucketCalendar, CAPACITY};
use calendar::fault::CalendarFault;
use calendar::{Calendar, Held, PUTS};

impl Calendar for BucketCalendar {
    ghost meaning = { contents_of };

    ghost lawful = { lawful_contents };

    fn put(&mut self, h: Held) -> Result<(), CalendarFault> {
        if self.buckets.len() >= CAPACITY || self.buckets.puts() >= PUTS {
            return Err(CalendarFault::Full);
        }
        self.buckets.push(h);
        Ok(())
    }

    fn look(&self, i: usize) -> Option<Held> {
        self.buckets.look(i)
    }

    fn heads(&self, out: &mut Vec<Held>) {
        self.buckets.heads(out);
    }

    fn take(&mut self) -> Option<Held> {
        self.buckets.pop()
    }

    fn peek(&self, v: u8, i: usize) -> Option<Held> {
        self.buckets.peek(v, i)
    }

    fn capacity(&self) -> usize {
        CAPACITY
    }

    fn count(&self) -> usize {
        self.buckets.len()
    }

    fn spread(&mut self, v: u8, c: u8) {
        self.buckets.spread(v, c);
    }

    fn erase(&mut self, v: u8) {
        self.buckets.erase(v);
    }

    fn empty(&mut self) {
        self.buckets.clear();
    }
}
