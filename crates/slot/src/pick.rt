// The choice among slots: number i, in order, of those that pass a test.
ghost use Rattle.std.specs.Prelude.{◌≡◌, Bool, true, filter};
ghost use Rattle.event.specs.Lists.{first};
ghost use Rattle.std.specs.List.{slice_get};
ghost use Rattle.slot.specs.declared.Slot.{Slot};
ghost use Rattle.slot.specs.Rank.{ranked};
ghost use Rattle.slot.specs.Slots.{earlier, steady};
ghost use Rattle.slot.specs.Passes.{Gives, admits};

use crate::Slot;
use crate::order::comes_before;

// The first of those that pass the test and come after `after`.
pub fn first_after<F: Fn(&Slot) -> bool>(
    slots: &[Slot],
    test: F,
    after: Option<Slot>,
) -> Option<Slot>
    requires { F.IsAlwaysCallable test }
    ensures { (p : Slot → Bool) → Gives F.Fn test p → result ≡ first (filter (admits p after) (ranked earlier slots.now)) }
{
    slots
        .iter()
        .copied()
        .filter(|s| test(s) && after.is_none_or(|a| comes_before(&a, s)))
        .max()
}

// Number i of those that pass the test, where key and age tell all apart.
pub fn nth<F: Fn(&Slot) -> bool>(slots: &[Slot], test: F, i: usize) -> Option<Slot>
    requires { F.IsAlwaysCallable test }
    ensures { (p : Slot → Bool) → Gives F.Fn test p → steady (ranked earlier slots.now) ≡ true → result ≡ slice_get (filter p (ranked earlier slots.now)) i }
{
    let mut last = first_after(slots, &test, None)?;
    for _ in 0..i {
        last = first_after(slots, &test, Some(last))?;
    }
    Some(last)
}
