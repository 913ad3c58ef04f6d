// The order of slots: by key, and then the older put first.
ghost use Rattle.std.specs.Prelude.{◌≡◌, Some, refl};
ghost use Rattle.std.specs.Cmp.{partial_order_from_agreeing_total};
ghost use Rattle.slot.specs.Slots.{earlier, turned, rank_of};
ghost use Rattle.slot.specs.Laws.{turned_total, turned_ties};

use crate::Slot;
use event::Key;
use group::Group;
use std::cmp::Ordering;

// What the order goes by, part by part. What follows key and age only makes the order total.
#[derive(Clone, Copy, PartialEq, Eq, PartialOrd, Ord)]
struct Rank {
    key: Key,
    age: u32,
    kind: u8,
    data: u32,
    group: Group,
}

impl Slot {
    fn rank(&self) -> Rank
        ensures { result ≡ rank_of self.now }
    {
        Rank {
            key: self.held.key(),
            age: self.age,
            kind: self.held.message.kind,
            data: self.held.message.data,
            group: self.held.group,
        }
    }
}

// Whether a comes before b.
pub fn comes_before(a: &Slot, b: &Slot) -> bool
    ensures { result ≡ earlier a.now b.now }
{
    a.rank() < b.rank()
}

impl PartialOrd for Slot {
    ghost partial_cmp = { λ x y. Some (turned x y) };

    ghost laws = { partial_order_from_agreeing_total turned turned_total (λ _ _. refl) turned_ties };

    fn partial_cmp(&self, other: &Slot) -> Option<Ordering> {
        Some(self.cmp(other))
    }
}

// The earlier is the greater, for a heap that gives the greatest.
impl Ord for Slot {
    ghost cmp = { turned };

    ghost total = { turned_total };

    ghost matches_partial_cmp = { λ _ _. refl };

    ghost matches_eq = { turned_ties };

    fn cmp(&self, other: &Slot) -> Ordering {
        other.rank().cmp(&self.rank())
    }
}
