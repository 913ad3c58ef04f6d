// A heap of entries: how one of them finds its place.
ghost use Rattle.std.specs.Prelude.{◌≡◌, ℕ, ◌+◌, ◌*◌, ◌<◌, ◌≤◌, length, slice_set, slice_index_or};
ghost use Rattle.std.specs.List.{AllByRecursion};
ghost use Rattle.std.specs.List.Sorted.{IsPermutation};
ghost use Rattle.slot.specs.declared.Slot.{Slot};
ghost use Rattle.heap_calendar.specs.Entries.{Fits, slots, no_entry};
ghost use Rattle.heap_calendar.specs.Sifts.{IsEarlierChild, Lifts, Mends};

use crate::entry::Entry;
use slot::Slot;

// Puts x in at `start`, or above it, past those that it comes before.
pub(crate) fn rise(pool: &[Slot], all: &mut [Entry], start: usize, x: Entry)
    requires within { start < length all.old }
    requires fit { AllByRecursion (Fits pool.now) (slice_set all.old start x) }
    ensures shuffled { IsPermutation (slice_set all.old start x) all.new }
    ensures lifts { Lifts (slots pool.now (slice_set all.old start x)) start (slots pool.now all.new) }
{
    let mut at = start;
    while 0 < at && x.precedes(&all[(at - 1) / 2], pool) {
        all[at] = all[(at - 1) / 2];
        at = (at - 1) / 2;
    }
    all[at] = x;
}

// Puts x in for the root: down to a leaf, and up from there.
pub(crate) fn replace_root(pool: &[Slot], all: &mut [Entry], x: Entry)
    requires some { 0 < length all.old }
    requires fit { AllByRecursion (Fits pool.now) (slice_set all.old 0 x) }
    ensures shuffled { IsPermutation (slice_set all.old 0 x) all.new }
    ensures mends { Mends (slots pool.now (slice_set all.old 0 x)) (slots pool.now all.new) }
{
    let mut at = 0;
    while at < all.len() / 2 {
        let child = earlier_child(pool, all, at);
        all[at] = all[child];
        at = child;
    }
    rise(pool, all, at, x);
}

// The earlier child of `at`.
#[inline(always)]
pub(crate) fn earlier_child(pool: &[Slot], all: &[Entry], at: usize) -> usize
    requires within { at * 2 + 1 < length all.now }
    requires fit { (k : ℕ) → at < k → k < length all.now → Fits pool.now (slice_index_or all.now k no_entry) }
    ensures least { at * 2 + 1 ≤ result }
    ensures most { result ≤ at * 2 + 2 }
    ensures within { result < length all.now }
    ensures earlier { (x : Slot) → IsEarlierChild (slice_set (slots pool.now all.now) at x) at result }
{
    let right = 2 * at + 2;
    if right < all.len() && all[right].precedes(&all[right - 1], pool) {
        right
    } else {
        right - 1
    }
}
