// Held messages in a pool of slots in no order, linked by buckets, with the first beside it.
ghost use Rattle.std.specs.Prelude.{◌≡◌, ◌+◌, ◌<◌, ◌≤◌, [], ◌∷◌, List, length, map, take, Some, vec_len, vec_capacity, IfOk};
ghost use Rattle.std.specs.Coded.{codes};
ghost use Rattle.std.specs.List.{slice_get};
ghost use Rattle.event.specs.Lists.{insert, first, rest};
ghost use Rattle.calendar.specs.declared.Held.{Held};
ghost use Rattle.calendar.specs.Calls.{key_of_held, leading, waiting, spread, erase};
ghost use Rattle.slot.specs.declared.Slot.{Slot};
ghost use Rattle.slot.specs.Rank.{ranked};
ghost use Rattle.slot.specs.Slots.{earlier, in_order};
ghost use Rattle.slot.proofs.Holds.{in_order_sorted};
ghost use Rattle.bucket_calendar.specs.Chains.{Sound};
ghost use Rattle.bucket_calendar.specs.Changes.{changed};
ghost use Rattle.slot.specs.Passes.{Gives};
ghost use Rattle.bucket_calendar.specs.Line.{Line, fits_in_order};
ghost use Rattle.slot.specs.Props.{sorted_prop};

use crate::chains::{Chains, bucket};
use crate::store::CAPACITY;
use calendar::Held;
use group::VARIANTS;
use slot::Slot;
use slot::order::comes_before;
use slot::pick::nth;
use std::alloc::{AllocError, Global};
use std::marker::Model;

// The age of a slot is how many puts were before it. There is room for just 512, so no call allocates after `new`.
#[derive(Drop)]
pub(crate) struct Buckets {
    pool: Vec<Slot>,
    chains: Chains,
    first: Option<Slot>,
    puts: u32,
    ghost short: { vec_len pool ≤ 512 },
}

// Callers see what is held, in order, and the puts since it was emptied.
impl Model for Buckets {
    ghost Value = { Line };

    ghost coded = { Prim.hlevel (codes, sorted_prop) };

    ghost view = { λ b. record { held = in_order b.pool.items; puts = b.puts; fits = fits_in_order b.pool b.short; sorted = in_order_sorted b.pool.items } };

    ghost invariant = { λ b. (vec_capacity b.pool ≡ 512) × Sound b.puts b.first b.chains.heads b.chains.next b.pool.items };
}

impl Buckets {
    pub(crate) fn new(memory: Global) -> Result<Buckets, AllocError>
        ensures held { IfOk result (λ b. b.held ≡ []) }
        ensures puts { IfOk result (λ b. b.puts ≡ 0) }
    {
        Ok(Buckets {
            pool: Vec::with_capacity(memory, CAPACITY)?,
            chains: Chains::new(),
            first: None,
            puts: 0,
        })
    }

    pub(crate) fn len(&self) -> usize
        ensures { result ≡ length self.now.held }
    {
        self.pool.len()
    }

    // The puts since it was emptied.
    pub(crate) fn puts(&self) -> u32
        ensures { result ≡ self.now.puts }
    {
        self.puts
    }

    // Goes behind those with its key.
    pub(crate) fn push(&mut self, h: Held)
        requires room { length self.old.held < 512 }
        requires ages { self.old.puts < 4294967295 }
        ensures held { self.new.held ≡ insert key_of_held h self.old.held }
        ensures puts { self.new.puts ≡ self.old.puts + 1 }
    {
        let slot = Slot {
            held: h,
            age: self.puts,
        };
        let place = self.pool.len() as u16;
        self.pool.push_reserved(slot);
        self.chains.link(&self.pool, place);
        self.first = sooner(self.first, slot);
        self.puts += 1;
    }

    // Tells and removes the first.
    pub(crate) fn pop(&mut self) -> Option<Held>
        ensures told { result ≡ first self.old.held }
        ensures held { self.new.held ≡ rest self.old.held }
        ensures puts { self.new.puts ≡ self.old.puts }
    {
        let first = self.first?;
        let b = bucket(&first);
        let place = self.chains.heads[b]?;
        self.chains.unlink(&self.pool, b, place);
        self.pool.swap_remove(place as usize);
        self.first = self.chains.next_first(&self.pool, &first);
        Some(first.held)
    }

    pub(crate) fn clear(&mut self)
        ensures held { self.new.held ≡ [] }
        ensures puts { self.new.puts ≡ 0 }
    {
        self.pool.clear();
        self.chains = Chains::new();
        self.first = None;
        self.puts = 0;
    }

    // Number i, from 0, of those with the smallest key, which are the front of the first one's bucket.
    pub(crate) fn look(&self, i: usize) -> Option<Held>
        ensures { result ≡ slice_get (leading self.now.held) i }
    {
        let first = self.first?;
        if i == 0 {
            return Some(first.held);
        }
        let other = self.chains.nth(&self.pool, bucket(&first), i)?;
        if first.held.key() == other.held.key() {
            Some(other.held)
        } else {
            None
        }
    }

    // Those with the smallest key, in order, as far as there is room for them.
    pub(crate) fn heads(&self, out: &mut Vec<Held>)
        ensures heads { out.new.items ≡ take (vec_capacity out.old) (leading self.now.held) }
        ensures room { vec_capacity out.new ≡ vec_capacity out.old }
    {
        self.chains.heads(&self.pool, self.first, out);
    }

    // Number i, from 0, of those that wait for v.
    pub(crate) fn peek(&self, v: u8, i: usize) -> Option<Held>
        ensures { result ≡ slice_get (waiting v self.now.held) i }
    {
        nth(&self.pool, |s| s.held.group.has(v), i).map(|s| s.held)
    }

    // Adds c to every group that has v.
    pub(crate) fn spread(&mut self, v: u8, c: u8)
        ensures held { self.new.held ≡ spread v c self.old.held }
        ensures puts { self.new.puts ≡ self.old.puts }
    {
        change(&mut self.pool, |h| h.joins(v, c));
        self.first = self.chains.earliest(&self.pool);
    }

    // Removes v from every group, and drops every message that no variant waits for.
    pub(crate) fn erase(&mut self, v: u8)
        ensures held { self.new.held ≡ erase v self.old.held }
        ensures puts { self.new.puts ≡ self.old.puts }
    {
        if v >= VARIANTS {
            return;
        }
        change(&mut self.pool, |h| h.leaves(v));
        self.pool.retain(|s| s.held.is_wanted());
        self.chains = Chains::of(&self.pool);
        self.first = self.chains.earliest(&self.pool);
    }
}

// The earlier of s and what was first.
fn sooner(known: Option<Slot>, s: Slot) -> Option<Slot>
    ensures { (xs : List Slot) → known ≡ first (ranked earlier xs) → result ≡ first (ranked earlier (s ∷ xs)) }
{
    let Some(first) = known else {
        return Some(s);
    };
    if comes_before(&s, &first) {
        Some(s)
    } else {
        known
    }
}

// Makes of each what f gives, with its age.
fn change<F: Fn(&Held) -> Held>(pool: &mut Vec<Slot>, f: F)
    requires { F.IsAlwaysCallable f }
    ensures items { (g : Held → Held) → Gives F.Fn f g → pool.new.items ≡ map (changed g) pool.old.items }
    ensures len { vec_len pool.new ≡ vec_len pool.old }
    ensures capacity { vec_capacity pool.new ≡ vec_capacity pool.old }
{
    for s in pool.iter_mut() {
        s.held = f(&s.held);
    }
}
