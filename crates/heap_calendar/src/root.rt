// A heap of entries whose root may have been taken: how slots go in and out, and which come first.
ghost use Rattle.std.specs.Prelude.{◌≡◌, ℕ, ◌+◌, ◌<◌, ◌≤◌, Bool, true, false, ◌∷◌, length, vec_capacity, vec_items, vec_len, IfSome};
ghost use Rattle.std.specs.List.{AllByRecursion, slice_get};
ghost use Rattle.std.specs.Option.{option_copied, option_map};
ghost use Rattle.std.specs.List.Sorted.{IsPermutation};
ghost use Rattle.std.specs.BinaryHeap.{IsHeap, KeepsHeap};
ghost use Rattle.event.specs.Lists.{rest};
ghost use Rattle.slot.specs.Rank.{ranked};
ghost use Rattle.slot.specs.Slots.{earlier, turned};
ghost use Rattle.heap_calendar.specs.Entries.{Fits, Kept, KeptSoFar, slot_of, slots, named, same_number};
ghost use Rattle.heap_calendar.specs.Totals.{standing};

use crate::entry::Entry;
use crate::sift::{earlier_child, replace_root, rise};
use slot::Slot;

// All but a root that was taken.
pub(crate) fn live(all: &[Entry], taken: bool) -> &[Entry]
    ensures { result.now ≡ standing taken all.now }
{
    match all {
        [_, below @ ..] if taken => below,
        _ => all,
    }
}

// Puts a slot in: for the root, if that was taken.
pub(crate) fn put_in(
    pool: &mut Vec<Slot>,
    order: &mut Vec<Entry>,
    free: &mut Vec<u16>,
    taken: bool,
    slot: &Slot,
)
    requires rooted { taken ≡ true → 0 < vec_len order.old }
    requires room { taken ≡ false → vec_len order.old < 512 }
    requires pool_reserved { 512 ≤ vec_capacity pool.old }
    requires reserved { 512 ≤ vec_capacity order.old }
    requires kept { KeptSoFar pool.old.items order.old.items free.old.items }
    ensures shuffled { IsPermutation (slot.now ∷ standing taken (slots pool.old.items order.old.items)) (slots pool.new.items order.new.items) }
    ensures built { KeepsHeap turned (slots pool.old.items order.old.items) (slots pool.new.items order.new.items) }
    ensures kept { KeptSoFar pool.new.items order.new.items free.new.items }
    ensures full { vec_len pool.old ≡ 512 → Kept pool.new.items order.new.items free.new.items }
    ensures pool_room { vec_capacity pool.new ≡ vec_capacity pool.old }
    ensures order_room { vec_capacity order.new ≡ vec_capacity order.old }
    ensures free_room { vec_capacity free.new ≡ vec_capacity free.old }
{
    if taken {
        put_for_root(pool, order, slot);
    } else if let Some(at) = free.pop() {
        put_at_end(pool, order, at, slot);
    } else {
        // none is free: one more, below the 512 that an entry can name
        let at = pool.len() as u16;
        pool.push_reserved(*slot);
        put_at_end(pool, order, at, slot);
    }
}

// The slot goes where that of the root was.
fn put_for_root(pool: &mut Vec<Slot>, order: &mut [Entry], slot: &Slot)
    requires some { 0 < length order.old }
    requires fit { AllByRecursion (Fits pool.old.items) order.old }
    requires once { (k : ℕ) → named k order.old ≤ 1 }
    ensures shuffled { IsPermutation (slot.now ∷ rest (slots pool.old.items order.old)) (slots pool.new.items order.new) }
    ensures built { KeepsHeap turned (slots pool.old.items order.old) (slots pool.new.items order.new) }
    ensures fit { AllByRecursion (Fits pool.new.items) order.new }
    ensures named { (k : ℕ) → named k order.new ≡ named k order.old }
    ensures wide { vec_len pool.new ≡ vec_len pool.old }
    ensures pool_room { vec_capacity pool.new ≡ vec_capacity pool.old }
{
    let at = order[0].at;
    pool[usize::from(at)] = *slot;
    replace_root(pool, order, Entry::new(slot, at));
}

// The slot goes to a free place.
fn put_at_end(pool: &mut Vec<Slot>, order: &mut Vec<Entry>, at: u16, slot: &Slot)
    requires within { at < vec_len pool.old }
    requires room { vec_len order.old < vec_capacity order.old }
    requires fit { AllByRecursion (Fits pool.old.items) order.old.items }
    requires absent { named at order.old.items ≡ 0 }
    ensures shuffled { IsPermutation (slot.now ∷ slots pool.old.items order.old.items) (slots pool.new.items order.new.items) }
    ensures built { KeepsHeap turned (slots pool.old.items order.old.items) (slots pool.new.items order.new.items) }
    ensures fit { AllByRecursion (Fits pool.new.items) order.new.items }
    ensures named { (k : ℕ) → named k order.new.items ≡ same_number at k + named k order.old.items }
    ensures wide { vec_len pool.new ≡ vec_len pool.old }
    ensures pool_room { vec_capacity pool.new ≡ vec_capacity pool.old }
    ensures order_room { vec_capacity order.new ≡ vec_capacity order.old }
{
    pool[usize::from(at)] = *slot;
    let entry = Entry::new(slot, at);
    let end = order.len();
    order.push_reserved(entry);
    rise(pool, order, end, entry);
}

// Lets a taken root go.
pub(crate) fn settle(pool: &[Slot], order: &mut Vec<Entry>, free: &mut Vec<u16>, taken: bool)
    requires reserved { 512 ≤ vec_capacity free.old }
    requires kept { KeptSoFar pool.now order.old.items free.old.items }
    ensures shuffled { IsPermutation (standing taken order.old.items) order.new.items }
    ensures built { KeepsHeap turned (slots pool.now order.old.items) (slots pool.now order.new.items) }
    ensures kept { KeptSoFar pool.now order.new.items free.new.items }
    ensures full { length pool.now ≡ 512 → Kept pool.now order.new.items free.new.items }
    ensures order_room { vec_capacity order.new ≡ vec_capacity order.old }
    ensures free_room { vec_capacity free.new ≡ vec_capacity free.old }
{
    if taken {
        drop_root(pool, order, free);
    }
}

// The last entry goes in for the root.
fn drop_root(pool: &[Slot], order: &mut Vec<Entry>, free: &mut Vec<u16>)
    requires reserved { 512 ≤ vec_capacity free.old }
    requires kept { KeptSoFar pool.now order.old.items free.old.items }
    ensures shuffled { IsPermutation (rest order.old.items) order.new.items }
    ensures built { KeepsHeap turned (slots pool.now order.old.items) (slots pool.now order.new.items) }
    ensures kept { KeptSoFar pool.now order.new.items free.new.items }
    ensures full { length pool.now ≡ 512 → Kept pool.now order.new.items free.new.items }
    ensures order_room { vec_capacity order.new ≡ vec_capacity order.old }
    ensures free_room { vec_capacity free.new ≡ vec_capacity free.old }
{
    if let Some(last) = order.pop() {
        if order.is_empty() {
            free.push_reserved(last.at);
        } else {
            free.push_reserved(order[0].at);
            replace_root(pool, order, last);
        }
    }
}

// The first in order.
pub(crate) fn first(pool: &[Slot], all: &[Entry], taken: bool) -> Option<Entry>
    requires heap { IsHeap turned (slots pool.now all.now) }
    requires fit { AllByRecursion (Fits pool.now) all.now }
    ensures fit { IfSome result (Fits pool.now) }
    ensures slot { option_map (slot_of pool.now) result ≡ slice_get (ranked earlier (standing taken (slots pool.now all.now))) 0 }
{
    if taken {
        below_root(pool, all)
    } else {
        all.first().copied()
    }
}

// The second in order.
pub(crate) fn second(pool: &[Slot], all: &[Entry], taken: bool) -> Option<Entry>
    requires heap { IsHeap turned (slots pool.now all.now) }
    requires fit { AllByRecursion (Fits pool.now) all.now }
    ensures fit { IfSome result (Fits pool.now) }
    ensures slot { option_map (slot_of pool.now) result ≡ slice_get (ranked earlier (standing taken (slots pool.now all.now))) 1 }
{
    if taken {
        below_child(pool, all)
    } else {
        below_root(pool, all)
    }
}

pub(crate) fn root<'a>(pool: &'a [Slot], all: &[Entry]) -> Option<&'a Slot>
    requires fit { AllByRecursion (Fits pool.now) all.now }
    ensures { option_copied result ≡ slice_get (slots pool.now all.now) 0 }
{
    if all.is_empty() {
        return None;
    }
    Some(all[0].slot(pool))
}

// The first but the root: its earlier child.
fn below_root(pool: &[Slot], all: &[Entry]) -> Option<Entry>
    requires heap { IsHeap turned (slots pool.now all.now) }
    requires fit { AllByRecursion (Fits pool.now) all.now }
    ensures fit { IfSome result (Fits pool.now) }
    ensures slot { option_map (slot_of pool.now) result ≡ slice_get (ranked earlier (slots pool.now all.now)) 1 }
{
    if all.len() < 2 {
        return None;
    }
    Some(all[earlier_child(pool, all, 0)])
}

// The first but the root and its earlier child: the other child, or a child of the earlier one.
pub(crate) fn below_child(pool: &[Slot], all: &[Entry]) -> Option<Entry>
    requires heap { IsHeap turned (slots pool.now all.now) }
    requires fit { AllByRecursion (Fits pool.now) all.now }
    ensures fit { IfSome result (Fits pool.now) }
    ensures slot { option_map (slot_of pool.now) result ≡ slice_get (ranked earlier (slots pool.now all.now)) 2 }
{
    if all.len() < 3 {
        return None;
    }
    let child = earlier_child(pool, all, 0);
    let other = all[3 - child];
    if 2 * child + 1 >= all.len() {
        return Some(other);
    }
    let next = all[earlier_child(pool, all, child)];
    if next.precedes(&other, pool) {
        return Some(next);
    }
    Some(other)
}
