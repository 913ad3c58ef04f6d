// Those with the smallest key, one after the other.
ghost use Rattle.std.specs.Prelude.{◌≡◌, ◌-◌, true, Some, take, vec_capacity, IfSome};
ghost use Rattle.std.specs.List.{AllByRecursion, slice_get};
ghost use Rattle.std.specs.Option.{option_copied, option_map};
ghost use Rattle.std.specs.BinaryHeap.{IsHeap};
ghost use Rattle.calendar.specs.Calls.{leading};
ghost use Rattle.slot.specs.Rank.{ranked};
ghost use Rattle.slot.specs.Slots.{earlier, in_order, key_of_slot, steady, turned};
ghost use Rattle.slot.specs.Passes.{leading_slots, likewise};
ghost use Rattle.heap_calendar.specs.Entries.{Fits, slot_of, slots};
ghost use Rattle.heap_calendar.specs.Totals.{standing};

use crate::entry::Entry;
use crate::pick::first_after;
use crate::root::{below_child, first, live, second};
use calendar::Held;
use slot::Slot;

// The slot of an entry, if it has the key of s. It is read only where the entry has the time, receiver and sender of s.
pub(crate) fn alike<'a>(pool: &'a [Slot], entry: Option<Entry>, s: &Slot) -> Option<&'a Slot>
    requires { IfSome entry (Fits pool.now) }
    ensures { option_copied result ≡ likewise (key_of_slot s.now) (option_map (slot_of pool.now) entry) }
{
    let entry = entry?;
    let message = &s.held.message;
    if entry.time != message.time
        || entry.receiver != message.receiver
        || entry.sender != message.sender
    {
        return None;
    }
    let found = entry.slot(pool);
    if s.held.key() == found.held.key() {
        Some(found)
    } else {
        None
    }
}

// Number i, from 0, of those with the smallest key, where `near` is the one before it, or the first itself for 0.
fn next_head(pool: &[Slot], all: &[Entry], taken: bool, i: usize, near: &Slot) -> Option<Slot>
    requires heap { IsHeap turned (slots pool.now all.now) }
    requires fit { AllByRecursion (Fits pool.now) all.now }
    requires apart { steady (ranked earlier (standing taken (slots pool.now all.now))) ≡ true }
    requires near { slice_get (leading_slots (ranked earlier (standing taken (slots pool.now all.now)))) (i - 1) ≡ Some near.now }
    ensures { result ≡ slice_get (leading_slots (ranked earlier (standing taken (slots pool.now all.now)))) i }
{
    if i == 0 {
        return Some(*near);
    }
    match i {
        1 => alike(pool, second(pool, all, taken), near).copied(),
        2 if !taken => alike(pool, below_child(pool, all), near).copied(),
        _ => first_after(
            pool,
            live(all, taken),
            |s| near.held.key() == s.held.key(),
            Some(*near),
        ),
    }
}

// All of them, in order, as far as there is room.
pub(crate) fn find_heads(pool: &[Slot], all: &[Entry], taken: bool, out: &mut Vec<Held>)
    requires heap { IsHeap turned (slots pool.now all.now) }
    requires fit { AllByRecursion (Fits pool.now) all.now }
    requires apart { steady (ranked earlier (standing taken (slots pool.now all.now))) ≡ true }
    ensures heads { out.new.items ≡ take (vec_capacity out.old) (leading (in_order (standing taken (slots pool.now all.now)))) }
    ensures room { vec_capacity out.new ≡ vec_capacity out.old }
{
    out.clear();
    let Some(first) = first(pool, all, taken) else {
        return;
    };
    let mut near = *first.slot(pool);
    for i in 0..out.capacity() {
        let Some(head) = next_head(pool, all, taken, i, &near) else {
            return;
        };
        out.push_reserved(head.held);
        near = head;
    }
}
