// What a calendar is: messages that variants wait for, by key and then older put first.
#![tactic(auto)]

pub mod fault;

ghost use Rattle.std.specs.Prelude.{◌≡◌, List, length, take, vec_capacity, if◌then◌else◌, Ok, Err};
ghost use Rattle.std.specs.List.{slice_get};
ghost use Rattle.event.specs.Lists.{first, rest};
ghost use Rattle.calendar.specs.declared.Held.{Held};
ghost use Rattle.calendar.specs.declared.fault.CalendarFault.TheVariants.{Full};
ghost use Rattle.calendar.specs.Calls.{key_of_held, leading, waiting, joins, spread, leaves, erase, wanted};
ghost use Rattle.calendar.specs.Contents.{Contents, accepts, put_in, holding, emptied, Lawful};
ghost use Rattle.calendar.specs.Laws.{PutLaws, TakeLaws, SpreadLaws, EraseLaws};

use event::{Key, Message};
use fault::CalendarFault;
use group::Group;

// The puts that a calendar accepts before it is emptied.
pub const PUTS: u32 = 1_000_000;

// A message and the variants that wait for it.
#[derive(Clone, Copy, PartialEq, Eq, Debug)]
pub struct Held {
    pub message: Message,
    pub group: Group,
}

impl Held {
    // What the sequence goes by. The laws say what a put and a take do to the messages of one variant.
    pub fn key(&self) -> Key
        ensures value { result ≡ key_of_held self.now }
        ensures put { (h : Held) (xs : List Held) → PutLaws h xs }
        ensures take { (x : Held) (xs : List Held) → TakeLaws x xs }
    {
        self.message.key()
    }

    // With c in its group, if v is in it. The laws say what a spread does to the messages of each variant.
    pub fn joins(&self, v: u8, c: u8) -> Held
        ensures value { result ≡ joins v c self.now }
        ensures laws { (xs : List Held) → SpreadLaws v c xs }
    {
        if self.group.has(v) {
            Held {
                group: self.group.with(c),
                ..*self
            }
        } else {
            *self
        }
    }

    // Without v in its group. The laws say what an erase does to the messages of each variant.
    pub fn leaves(&self, v: u8) -> Held
        ensures value { result ≡ leaves v self.now }
        ensures laws { (xs : List Held) → EraseLaws v xs }
    {
        Held {
            group: self.group.without(v),
            ..*self
        }
    }

    // Whether some variant waits for it.
    pub fn is_wanted(&self) -> bool
        ensures { result ≡ wanted self.now }
    {
        !self.group.is_empty()
    }
}

// The held messages are one list, in order; every call is told by what it makes of the contents.
pub trait Calendar {
    ghost meaning: { Self → Contents };

    // Goes behind those with its key. Refused where the calendar is full or its puts are used up, and then changes nothing.
    fn put(&mut self, h: Held) -> Result<(), CalendarFault>
        ensures told { result ≡ (if accepts (meaning self.old) then Ok tt else Err Full) }
        ensures put { meaning self.new ≡ put_in h (meaning self.old) };

    // Message i, from 0, of those with the smallest key.
    fn look(&self, i: usize) -> Option<Held>
        ensures { result ≡ slice_get (leading (meaning self.now).held) i };

    // Those with the smallest key, in order, as far as there is room for them.
    fn heads(&self, out: &mut Vec<Held>)
        ensures heads { out.new.items ≡ take (vec_capacity out.old) (leading (meaning self.now).held) }
        ensures room { vec_capacity out.new ≡ vec_capacity out.old };

    // Tells and removes the first.
    fn take(&mut self) -> Option<Held>
        ensures told { result ≡ first (meaning self.old).held }
        ensures taken { meaning self.new ≡ holding (rest (meaning self.old).held) (meaning self.old) };

    // Message i, from 0, of those that wait for v.
    fn peek(&self, v: u8, i: usize) -> Option<Held>
        ensures { result ≡ slice_get (waiting v (meaning self.now).held) i };

    fn capacity(&self) -> usize
        ensures { result ≡ (meaning self.now).room };

    // How many are held.
    fn count(&self) -> usize
        ensures { result ≡ length (meaning self.now).held };

    // Adds c to every group that has v.
    fn spread(&mut self, v: u8, c: u8)
        ensures { meaning self.new ≡ holding (spread v c (meaning self.old).held) (meaning self.old) };

    // Removes v from every group, and drops every message that no variant waits for.
    fn erase(&mut self, v: u8)
        ensures { meaning self.new ≡ holding (erase v (meaning self.old).held) (meaning self.old) };

    // Holds none, and counts puts anew.
    fn empty(&mut self)
        ensures { meaning self.new ≡ emptied (meaning self.old) };

    ghost lawful: { (s : Self) → Lawful (meaning s) };
}
