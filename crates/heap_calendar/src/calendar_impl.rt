// The calls of a calendar in a binary heap.
ghost use Rattle.heap_calendar.specs.Laws.{contents_of, lawful_contents};

use crate::store::{CAPACITY, HeapCalendar};
use calendar::fault::CalendarFault;
use calendar::{Calendar, Held, PUTS};
use group::VARIANTS;

impl Calendar for HeapCalendar {
    ghost meaning = { contents_of };

    ghost lawful = { lawful_contents };

    fn put(&mut self, h: Held) -> Result<(), CalendarFault> {
        if self.queue.len() >= CAPACITY || self.puts >= PUTS {
            return Err(CalendarFault::Full);
        }
        self.queue.push(h);
        self.puts += 1;
        Ok(())
    }

    fn look(&self, i: usize) -> Option<Held> {
        self.queue.look(i)
    }

    fn heads(&self, out: &mut Vec<Held>) {
        self.queue.heads(out);
    }

    fn take(&mut self) -> Option<Held> {
        self.queue.pop()
    }

    fn peek(&self, v: u8, i: usize) -> Option<Held> {
        self.queue.peek(v, i)
    }

    fn capacity(&self) -> usize {
        CAPACITY
    }

    fn count(&self) -> usize {
        self.queue.len()
    }

    fn spread(&mut self, v: u8, c: u8) {
        self.queue.change(&mut self.spare, |h| Some(h.joins(v, c)));
    }

    fn erase(&mut self, v: u8) {
        if v < VARIANTS {
            self.queue.change(
                &mut self.spare,
                |h| Some(h.leaves(v)).filter(Held::is_wanted),
            );
        }
    }

    fn empty(&mut self) {
        self.queue.clear();
        self.puts = 0;
    }
}
