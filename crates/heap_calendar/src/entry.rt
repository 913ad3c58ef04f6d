// The entries of a heap: which slot stands where.
ghost use Rattle.std.specs.Prelude.{◌≡◌};
ghost use Rattle.slot.specs.Slots.{earlier};
ghost use Rattle.heap_calendar.specs.Entries.{Fits, slot_of, entry_of};

use slot::Slot;
use slot::order::comes_before;

// The number of a slot in the pool, behind what mostly tells its place in the order.
#[derive(Clone, Copy)]
pub(crate) struct Entry {
    pub(crate) time: u32,
    pub(crate) receiver: u8,
    pub(crate) sender: u8,
    pub(crate) at: u16,
}

impl Entry {
    // Of the slot that is put at this number.
    pub(crate) fn new(slot: &Slot, at: u16) -> Entry
        ensures { result ≡ entry_of slot.now at }
    {
        let message = &slot.held.message;
        Entry {
            time: message.time,
            receiver: message.receiver,
            sender: message.sender,
            at,
        }
    }

    // Its slot.
    pub(crate) fn slot<'a>(&self, pool: &'a [Slot]) -> &'a Slot
        requires { Fits pool.now self.now }
        ensures { result.now ≡ slot_of pool.now self.now }
    {
        &pool[usize::from(self.at)]
    }

    // Whether its slot comes before the other's.
    #[inline(always)]
    pub(crate) fn precedes(&self, other: &Entry, pool: &[Slot]) -> bool
        requires first { Fits pool.now self.now }
        requires second { Fits pool.now other.now }
        ensures { result ≡ earlier (slot_of pool.now self.now) (slot_of pool.now other.now) }
    {
        if self.time != other.time {
            return self.time < other.time;
        }
        if self.receiver != other.receiver {
            return self.receiver < other.receiver;
        }
        if self.sender != other.sender {
            return self.sender < other.sender;
        }
        self.slot_precedes(other, pool)
    }

    // The same by the slots, for entries that do not tell.
    #[cold]
    #[inline(never)]
    fn slot_precedes(&self, other: &Entry, pool: &[Slot]) -> bool
        requires first { Fits pool.now self.now }
        requires second { Fits pool.now other.now }
        ensures { result ≡ earlier (slot_of pool.now self.now) (slot_of pool.now other.now) }
    {
        comes_before(self.slot(pool), other.slot(pool))
    }
}
