// The choice among the slots that entries name: number i, in order, of those that pass a test.
ghost use Rattle.std.specs.Prelude.{◌≡◌, Bool, true, filter};
ghost use Rattle.std.specs.List.{AllByRecursion, slice_get};
ghost use Rattle.event.specs.Lists.{first};
ghost use Rattle.slot.specs.declared.Slot.{Slot};
ghost use Rattle.slot.specs.Rank.{ranked};
ghost use Rattle.slot.specs.Slots.{earlier, steady};
ghost use Rattle.slot.specs.Passes.{Gives, admits};
ghost use Rattle.heap_calendar.specs.Entries.{Fits, slots};

use crate::entry::Entry;
use slot::Slot;
use slot::order::comes_before;

// Its slot, if there is one.
fn find(pool: &[Slot], e: &Entry) -> Option<Slot>
    ensures { result ≡ slice_get pool.now e.now.at }
{
    pool.get(usize::from(e.at)).copied()
}

// The first of those that pass the test and come after `after`.
pub(crate) fn first_after<F: Fn(&Slot) -> bool>(
    pool: &[Slot],
    all: &[Entry],
    test: F,
    after: Option<Slot>,
) -> Option<Slot>
    requires callable { F.IsAlwaysCallable test }
    requires fit { AllByRecursion (Fits pool.now) all.now }
    ensures { (p : Slot → Bool) → Gives F.Fn test p → result ≡ first (filter (admits p after) (ranked earlier (slots pool.now all.now))) }
{
    all.iter()
        .filter_map(|e| find(pool, e))
        .filter(|s| test(s) && after.is_none_or(|a| comes_before(&a, s)))
        .max()
}

// Number i of those that pass the test, where key and age tell all apart.
pub(crate) fn nth<F: Fn(&Slot) -> bool>(
    pool: &[Slot],
    all: &[Entry],
    test: F,
    i: usize,
) -> Option<Slot>
    requires callable { F.IsAlwaysCallable test }
    requires fit { AllByRecursion (Fits pool.now) all.now }
    ensures { (p : Slot → Bool) → Gives F.Fn test p → steady (ranked earlier (slots pool.now all.now)) ≡ true → result ≡ slice_get (filter p (ranked earlier (slots pool.now all.now))) i }
{
    let mut last = first_after(pool, all, &test, None)?;
    for _ in 0..i {
        last = first_after(pool, all, &test, Some(last))?;
    }
    Some(last)
}
