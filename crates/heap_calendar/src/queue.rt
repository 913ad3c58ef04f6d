// Held messages in a binary heap of slots, by key and then older put first.
ghost use Rattle.std.specs.Prelude.{◌≡◌, ◌+◌, ◌<◌, ◌≤◌, true, [], List, length, take, Option, Some, vec_capacity, vec_items, vec_len, IfOk, IfSome};
ghost use Rattle.std.specs.Coded.{codes};
ghost use Rattle.std.specs.List.{filter_map, slice_get};
ghost use Rattle.event.specs.Lists.{insert, first, rest, Sorted};
ghost use Rattle.calendar.specs.declared.Held.{Held};
ghost use Rattle.calendar.specs.Calls.{key_of_held, leading, waiting};
ghost use Rattle.slot.specs.Slots.{in_order};
ghost use Rattle.slot.proofs.Holds.{in_order_sorted};
ghost use Rattle.heap_calendar.specs.Changes.{KeepsKeys};
ghost use Rattle.slot.specs.Passes.{Gives};
ghost use Rattle.heap_calendar.specs.Line.{Line, fits_in_order};
ghost use Rattle.slot.specs.Props.{sorted_prop};
ghost use Rattle.heap_calendar.specs.Totals.{Sound, standing};
ghost use Rattle.heap_calendar.specs.Entries.{Kept, KeptSoFar, filled, filled_free, slots};
ghost use Rattle.slot.specs.declared.Slot.{Slot};

use crate::entry::Entry;
use crate::heads::{alike, find_heads};
use crate::pick::nth;
use crate::root::{below_child, first, live, put_in, root, second, settle};
use crate::store::CAPACITY;
use calendar::Held;
use slot::Slot;
use std::alloc::{AllocError, Global};
use std::marker::Model;

// The slots stay where they were put, the entries in `order` are a heap, and what no entry names is free. `next` is the age of the next put.
// A taken root stays until the next put, which goes in for it. There is room for 512, so no call allocates after `new`.
#[derive(Drop)]
pub(crate) struct Queue {
    pool: Vec<Slot>,
    order: Vec<Entry>,
    free: Vec<u16>,
    taken: bool,
    next: u32,
    ghost short: { vec_len order ≤ 512 },
    ghost rooted: { taken ≡ true → 0 < vec_len order },
}

// Callers see what is held, in order, and the age of the next put.
impl Model for Queue {
    ghost Value = { Line };

    ghost coded = { Prim.hlevel (codes, sorted_prop) };

    ghost view = { λ q. record { held = in_order (standing q.taken (slots q.pool.items q.order.items)); next = q.next; fits = fits_in_order q.taken q.pool.items q.order q.short; sorted = in_order_sorted (standing q.taken (slots q.pool.items q.order.items)) } };

    ghost invariant = { λ q. (512 ≤ vec_capacity q.order) × (512 ≤ vec_capacity q.free) × Sound q.next q.taken (slots q.pool.items q.order.items) × KeptSoFar q.pool.items q.order.items q.free.items × (512 ≤ vec_capacity q.pool) × Kept (filled q.pool.items) q.order.items (filled_free q.pool.items q.free.items) };
}

impl Queue {
    pub(crate) fn new(memory: Global) -> Result<Queue, AllocError>
        ensures held { IfOk result (λ q. q.held ≡ []) }
        ensures next { IfOk result (λ q. q.next ≡ 0) }
    {
        Ok(Queue {
            pool: Vec::with_capacity(memory, CAPACITY)?,
            order: Vec::with_capacity(memory, CAPACITY)?,
            free: Vec::with_capacity(memory, CAPACITY)?,
            taken: false,
            next: 0,
        })
    }

    pub(crate) fn len(&self) -> usize
        ensures { result ≡ length self.now.held }
    {
        self.order.len() - usize::from(self.taken)
    }

    // Goes behind those with its key.
    pub(crate) fn push(&mut self, h: Held)
        requires room { length self.old.held < 512 }
        requires ages { self.old.next < 4294967295 }
        ensures held { self.new.held ≡ insert key_of_held h self.old.held }
        ensures next { self.new.next ≡ self.old.next + 1 }
    {
        let slot = Slot {
            held: h,
            age: self.next,
        };
        put_in(
            &mut self.pool,
            &mut self.order,
            &mut self.free,
            self.taken,
            &slot,
        );
        self.taken = false;
        self.next += 1;
    }

    // Tells and removes the first.
    pub(crate) fn pop(&mut self) -> Option<Held>
        ensures told { result ≡ first self.old.held }
        ensures held { self.new.held ≡ rest self.old.held }
        ensures next { self.new.next ≡ self.old.next }
    {
        settle(&self.pool, &mut self.order, &mut self.free, self.taken);
        let told = root(&self.pool, &self.order).map(|s| s.held);
        self.taken = told.is_some();
        told
    }

    pub(crate) fn clear(&mut self)
        ensures held { self.new.held ≡ [] }
        ensures next { self.new.next ≡ 0 }
    {
        self.pool.clear();
        self.order.clear();
        self.free.clear();
        self.taken = false;
        self.next = 0;
    }

    // Number i, from 0, of those with the smallest key.
    pub(crate) fn look(&self, i: usize) -> Option<Held>
        ensures { result ≡ slice_get (leading self.now.held) i }
    {
        let pool = self.pool.as_slice();
        let all = self.order.as_slice();
        let first = first(pool, all, self.taken)?.slot(pool);
        match i {
            0 => Some(first.held),
            1 => alike(pool, second(pool, all, self.taken), first).map(|s| s.held),
            2 if !self.taken => alike(pool, below_child(pool, all), first).map(|s| s.held),
            _ => nth(
                pool,
                live(all, self.taken),
                |s| first.held.key() == s.held.key(),
                i,
            )
            .map(|s| s.held),
        }
    }

    // Those with the smallest key, in order, as far as there is room for them.
    pub(crate) fn heads(&self, out: &mut Vec<Held>)
        ensures heads { out.new.items ≡ take (vec_capacity out.old) (leading self.now.held) }
        ensures room { vec_capacity out.new ≡ vec_capacity out.old }
    {
        find_heads(&self.pool, &self.order, self.taken, out);
    }

    // The first of all, if v waits for it.
    fn head_for(&self, v: u8) -> Option<Held>
        ensures { IfSome result (λ h. slice_get (waiting v self.now.held) 0 ≡ Some h) }
    {
        let pool = self.pool.as_slice();
        let head = first(pool, self.order.as_slice(), self.taken)?
            .slot(pool)
            .held;
        if head.group.has(v) { Some(head) } else { None }
    }

    // Number i, from 0, of those that wait for v.
    pub(crate) fn peek(&self, v: u8, i: usize) -> Option<Held>
        ensures { result ≡ slice_get (waiting v self.now.held) i }
    {
        if i == 0 {
            // mostly it is the first of all, and no other is gone over
            if let Some(head) = self.head_for(v) {
                return Some(head);
            }
        }
        let all = live(self.order.as_slice(), self.taken);
        nth(self.pool.as_slice(), all, |s| s.held.group.has(v), i).map(|s| s.held)
    }

    // Makes of each what f gives, in order, and drops those of which it gives none. The ages begin anew; `spare` holds all meanwhile.
    pub(crate) fn change<F: Fn(&Held) -> Option<Held>>(&mut self, spare: &mut Vec<Held>, f: F)
        requires callable { F.IsAlwaysCallable f }
        requires room { 512 ≤ vec_capacity spare.old }
        ensures held { (g : Held → Option Held) → Gives F.Fn f g → KeepsKeys g → self.new.held ≡ filter_map g self.old.held }
        ensures next { self.new.next ≤ 512 }
        ensures capacity { vec_capacity spare.new ≡ vec_capacity spare.old }
    {
        self.drain(spare);
        self.put_back(spare.as_slice(), f);
    }

    // Takes all out, first to last.
    fn drain(&mut self, out: &mut Vec<Held>)
        requires room { 512 ≤ vec_capacity out.old }
        ensures out { out.new.items ≡ self.old.held }
        ensures held { self.new.held ≡ [] }
        ensures next { self.new.next ≡ 0 }
        ensures capacity { vec_capacity out.new ≡ vec_capacity out.old }
    {
        out.clear();
        while let Some(h) = self.pop() {
            out.push_reserved(h);
        }
        self.clear();
    }

    // Puts in what f gives of each, where all are in order.
    fn put_back<F: Fn(&Held) -> Option<Held>>(&mut self, all: &[Held], f: F)
        requires callable { F.IsAlwaysCallable f }
        requires none { self.old.held ≡ [] }
        requires ages { self.old.next ≡ 0 }
        requires room { length all.now ≤ 512 }
        requires sorted { Sorted key_of_held all.now }
        ensures held { (g : Held → Option Held) → Gives F.Fn f g → KeepsKeys g → self.new.held ≡ filter_map g all.now }
        ensures next { self.new.next ≤ 512 }
    {
        for h in all {
            if let Some(changed) = f(h) {
                self.push(changed);
            }
        }
    }
}
