// Which farm is chosen of those that wait, and which tanker of those that are free.
ghost use Rattle.std.specs.Prelude.{◌≡◌, ◌≤◌, IfSome, ◌≢◌, if◌then◌else◌};
ghost use Rattle.std.specs.Prelude.{◌-◌, fold, filter, None};
ghost use Rattle.std.specs.List.{find, range_with_len};
ghost use Rattle.collection.specs.Bits.{has};
ghost use Rattle.collection.specs.Choice.{rather, preferred, chosen_farm_of, free_tanker_of, Chosen, Nearest, Farthest, Smallest};
ghost use Rattle.collection.specs.Roads.{drive_of};

use super::bits::has_bit;
use super::{Collection, Preference};
use std::ops::Range;

// The seconds between the dairy and a place: the dairy itself, then farms 1 to 10.
const DRIVES: [u32; 11] = [0, 600, 900, 900, 1200, 450, 1500, 1500, 750, 1050, 600];

pub(super) fn drive(farm: u8) -> u32
    ensures { result ≡ drive_of farm }
{
    DRIVES.get(usize::from(farm)).copied().unwrap_or(0)
}

// Whether a farm goes ahead of another. Equal drives go to the smaller number.
// By the order and not by its preference, since the choice is defined by the order: a contract by the preference would have to say which orders it stands for.
fn goes_ahead(order: u32, farm: u8, other: u8) -> bool
    ensures { result ≡ preferred order farm other }
{
    let here = drive(farm);
    let there = drive(other);
    match Preference::from(order) {
        Preference::Smallest => farm < other,
        _ if here == there => farm < other,
        Preference::Farthest => here > there,
        Preference::Nearest => here < there,
    }
}

// Of a farm and the best before it, the one that goes ahead.
fn better(order: u32, farm: u8, best: Option<u8>) -> Option<u8>
    ensures { result ≡ rather (preferred order) farm best }
{
    match best {
        Some(other) if !goes_ahead(order, farm, other) => Some(other),
        _ => Some(farm),
    }
}

// The same of a farm whose bit is set; any other leaves the best before it.
fn better_of(order: u32, waiting: u32, farm: u8, best: Option<u8>) -> Option<u8>
    ensures { result ≡ (if has waiting farm then rather (preferred order) farm best else best) }
{
    if has_bit(waiting, farm) {
        better(order, farm, best)
    } else {
        best
    }
}

// Of the farms among these whose bit is set, the one that goes ahead of the others.
fn best_of(order: u32, waiting: u32, farms: Range<u8>) -> Option<u8>
    ensures { result ≡ fold (λ best i. rather (preferred order) i best) None (filter (has waiting) (range_with_len farms.start (farms.end - farms.start))) }
{
    // one fold: a filter before it would go back into the range for each farm that waits
    farms.fold(None, |best, farm| better_of(order, waiting, farm, best))
}

// The first of the tankers among these whose bit is set.
fn first_of(free: u32, mut tankers: Range<u8>) -> Option<u8>
    ensures { result ≡ find (has free) (range_with_len tankers.start (tankers.end - tankers.start)) }
{
    tankers.find(|tanker| has_bit(free, *tanker))
}

impl Collection {
    // The farm that an order chooses, where the bits of a word are the waiting farms.
    pub fn chosen_farm(&self, order: u32, waiting: u32) -> Option<u8>
        ensures value { result ≡ chosen_farm_of order waiting self.now.farms }
        ensures farthest { order ≡ 1 → Chosen Farthest waiting self.now.farms result }
        ensures smallest { order ≡ 2 → Chosen Smallest waiting self.now.farms result }
        ensures nearest { (order ≢ 1) → (order ≢ 2) → Chosen Nearest waiting self.now.farms result }
    {
        best_of(order, waiting, 1..self.farms + 1)
    }

    // The smallest-numbered free tanker, where the bits of a word are the free tankers.
    pub fn free_tanker(&self, free: u32) -> Option<u8>
        ensures value { result ≡ free_tanker_of free self.now.tankers }
        ensures smallest { Chosen Smallest free self.now.tankers result }
    {
        first_of(free, 1..self.tankers + 1)
    }
}
