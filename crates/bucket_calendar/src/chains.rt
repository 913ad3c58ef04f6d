// The slots of each bucket, linked through the pool in order.
ghost use Rattle.std.specs.Prelude.{true, false, [], ◌≡◌, ◌+◌, ◌/◌, ◌%◌, ℕ, List, ◌∷◌, ◌≤◌, ◌<◌, length, Some, ◌≢◌, take, slice_index_or, vec_capacity, None};
ghost use Rattle.std.specs.List.{AllByRecursion, slice_get, swap_remove};
ghost use Rattle.event.specs.Lists.{first};
ghost use Rattle.calendar.specs.Calls.{leading};
ghost use Rattle.slot.specs.declared.Slot.{Slot};
ghost use Rattle.slot.specs.Rank.{ranked};
ghost use Rattle.slot.specs.Slots.{earlier, in_order};
ghost use Rattle.bucket_calendar.specs.Buckets.{bucket_of, row_of};
ghost use Rattle.bucket_calendar.specs.Chains.{Runs, at, slot_at, Chain, Linked};
ghost use Rattle.bucket_calendar.specs.Cuts.{Cut, LeadsTo};
ghost use Rattle.bucket_calendar.specs.Hints.{Near, Begins};

use crate::store::CAPACITY;
use calendar::Held;
use slot::Slot;
use slot::order::comes_before;

// How many buckets there are.
pub(crate) const BUCKETS: usize = 64;

// How long the span of a bucket is.
const SPAN: u32 = 64;

// How many hints there are, of times that go round them, and how many times are looked at for one.
const HINTS: usize = 1024;

const REACH: u32 = 4;

// Each span of 64 in time has its bucket, and the spans go round all buckets.
pub(crate) fn bucket(s: &Slot) -> usize
    ensures value { result ≡ bucket_of s.now }
    ensures within { result < 64 }
{
    (s.held.message.time / SPAN) as usize % BUCKETS
}

// The last place in the chain from `start` whose slot comes before s.
fn last_before(
    pool: &[Slot],
    next: &[Option<u16>; CAPACITY],
    start: Option<u16>,
    s: &Slot,
) -> Option<u16>
    requires chain { Chain (length pool.now) next.now start }
    requires few { length pool.now ≤ 512 }
    ensures { (ps : List ℕ) → Runs next.now start ps → length ps ≤ length pool.now → Cut pool.now s.now ps result }
{
    let mut last = None;
    let mut here = start;
    for _ in 0..pool.len() {
        let Some(k) = here else {
            return last;
        };
        if !comes_before(&pool[k as usize], s) {
            return last;
        }
        last = here;
        here = next[k as usize];
    }
    last
}

// The place that leads to `place` in the chain from `start`, if one does.
fn leads_to(next: &[Option<u16>; CAPACITY], start: Option<u16>, place: u16) -> Option<u16>
    requires chain { Chain 512 next.now start }
    requires other { start ≢ Some place }
    ensures some { (k : ℕ) → result ≡ Some k → (ps : List ℕ) → Runs next.now start ps → LeadsTo k place ps }
    ensures none { result ≡ None → (ps : List ℕ) → Runs next.now start ps → length ps ≤ 512 → AllByRecursion (λ p. p ≢ place) ps }
{
    let mut here = start;
    for _ in 0..CAPACITY {
        let Some(k) = here else {
            return None;
        };
        if next[k as usize] == Some(place) {
            return here;
        }
        here = next[k as usize];
    }
    None
}

// Number i, from 0, of the places in the chain from `start`.
fn nth_place(next: &[Option<u16>; CAPACITY], start: Option<u16>, i: usize) -> Option<u16>
    requires { Chain 512 next.now start }
    ensures { (ps : List ℕ) → Runs next.now start ps → result ≡ slice_get ps i }
{
    let mut here = start;
    for _ in 0..i {
        let Some(k) = here else {
            return None;
        };
        here = next[k as usize];
    }
    here
}

// The slot at the place, if it is one.
fn slot_at(pool: &[Slot], place: Option<u16>) -> Option<Slot>
    ensures { result ≡ slot_at pool.now place }
{
    pool.get(place? as usize).copied()
}

// Whether the slot at the place, if it is one, is of the bucket of s and comes before s.
fn is_near(pool: &[Slot], place: u16, s: &Slot) -> bool
    ensures { result ≡ true → Near pool.now s.now place }
{
    match pool.get(place as usize) {
        Some(t) => bucket(t) == bucket(s) && comes_before(t, s),
        None => false,
    }
}

// Where the first slot of each bucket lies, and after each slot the next one of its bucket. A hint is where a slot of about that time was put. It only tells where a walk may begin, and one that does not fit is passed over.
#[derive(Drop)]
pub(crate) struct Chains {
    pub(crate) heads: [Option<u16>; BUCKETS],
    pub(crate) next: [Option<u16>; CAPACITY],
    hints: [u16; HINTS],
}

impl Chains {
    pub(crate) fn new() -> Chains
        ensures { Linked result.heads result.next [] }
    {
        Chains {
            heads: [None; BUCKETS],
            next: [None; CAPACITY],
            hints: [0; HINTS],
        }
    }

    // All slots of the pool, linked.
    pub(crate) fn of(pool: &[Slot]) -> Chains
        requires { length pool.now ≤ 512 }
        ensures { Linked result.heads result.next pool.now }
    {
        let mut chains = Chains::new();
        for place in 0..pool.len() {
            chains.link(pool, place as u16);
        }
        chains
    }

    // The first of all slots is the first of the buckets' first ones.
    pub(crate) fn earliest(&self, pool: &[Slot]) -> Option<Slot>
        ensures { Linked self.now.heads self.now.next pool.now → result ≡ first (ranked earlier pool.now) }
    {
        self.heads.iter().filter_map(|h| slot_at(pool, *h)).max()
    }

    // The first of the span's bucket, if it is of the span.
    fn first_in(&self, pool: &[Slot], span: u32) -> Option<Slot>
        requires { Linked self.now.heads self.now.next pool.now }
        ensures some { (s : Slot) → result ≡ Some s → (first (row_of (span % 64) pool.now) ≡ Some s) × (s.held.message.time / 64 ≡ span) }
        ensures none { result ≡ None → (s : Slot) → first (row_of (span % 64) pool.now) ≡ Some s → s.held.message.time / 64 ≢ span }
    {
        let s = slot_at(pool, self.heads[span as usize % BUCKETS])?;
        if s.held.message.time / SPAN == span {
            Some(s)
        } else {
            None
        }
    }

    // The first of those that are left, once `taken` was taken: that of the first span from there on that has one, or else the earliest of all buckets.
    pub(crate) fn next_first(&self, pool: &[Slot], taken: &Slot) -> Option<Slot>
        requires linked { Linked self.now.heads self.now.next pool.now }
        requires left { AllByRecursion (λ y. earlier y taken.now ≡ false) (ranked earlier pool.now) }
        ensures { result ≡ first (ranked earlier pool.now) }
    {
        let span = taken.held.message.time / SPAN;
        for ahead in 0..BUCKETS as u32 {
            let found = self.first_in(pool, span + ahead);
            if found.is_some() {
                return found;
            }
        }
        self.earliest(pool)
    }

    // Number i, from 0, of the bucket b.
    pub(crate) fn nth(&self, pool: &[Slot], b: usize, i: usize) -> Option<Slot>
        requires linked { Linked self.now.heads self.now.next pool.now }
        requires within { b < 64 }
        requires few { length pool.now ≤ 512 }
        ensures { result ≡ slice_get (row_of b pool.now) i }
    {
        slot_at(pool, nth_place(&self.next, self.heads[b], i))
    }

    // Those with the key of the first of all slots, which are the front of its bucket, in order, as far as there is room.
    pub(crate) fn heads(&self, pool: &[Slot], known: Option<Slot>, out: &mut Vec<Held>)
        requires linked { Linked self.now.heads self.now.next pool.now }
        requires few { length pool.now ≤ 512 }
        requires known { known ≡ first (ranked earlier pool.now) }
        ensures heads { out.new.items ≡ take (vec_capacity out.old) (leading (in_order pool.now)) }
        ensures room { vec_capacity out.new ≡ vec_capacity out.old }
    {
        out.clear();
        let Some(least) = known else {
            return;
        };
        let mut here = self.heads[bucket(&least)];
        for _ in 0..out.capacity() {
            let Some(place) = here else {
                return;
            };
            let slot = &pool[place as usize];
            if least.held.key() != slot.held.key() {
                return;
            }
            out.push_reserved(slot.held);
            here = self.next[place as usize];
        }
    }

    // Where a walk for s may begin: at another place than `but` whose slot comes before s in its bucket, if a hint tells one, and else at the head.
    fn start(&self, pool: &[Slot], s: &Slot, but: u16) -> Option<u16>
        ensures { Begins self.now.heads pool.now s.now but result }
    {
        for back in 0..REACH {
            let time = s.held.message.time.wrapping_sub(back);
            let place = self.hints[time as usize % HINTS];
            if place != but && is_near(pool, place, s) {
                return Some(place);
            }
        }
        self.heads[bucket(s)]
    }

    // The slot at `place` joins the chain of its bucket. The slots before it are linked, and no other bucket is touched.
    pub(crate) fn link(&mut self, pool: &[Slot], place: u16)
        requires linked { Linked self.old.heads self.old.next (take place pool.now) }
        requires within { place < length pool.now }
        requires few { length pool.now ≤ 512 }
        ensures linked { Linked self.new.heads self.new.next (take (place + 1) pool.now) }
        ensures others { (b : ℕ) → (b ≢ bucket_of (at pool.now place)) → slice_index_or self.new.heads b None ≡ slice_index_or self.old.heads b None }
        ensures kept { (q : ℕ) → q < place → (bucket_of (at pool.now q) ≢ bucket_of (at pool.now place)) → slice_index_or self.new.next q None ≡ slice_index_or self.old.next q None }
    {
        let s = &pool[place as usize];
        let b = bucket(s);
        let start = self.start(&pool[..place as usize], s, place);
        self.hints[s.held.message.time as usize % HINTS] = place;
        match last_before(pool, &self.next, start, s) {
            None => {
                self.next[place as usize] = self.heads[b];
                self.heads[b] = Some(place);
            }
            Some(k) => {
                self.next[place as usize] = self.next[k as usize];
                self.next[k as usize] = Some(place);
            }
        }
    }

    // The first of the bucket b, at `place`, leaves its chain. What leads to the last slot of the pool is led to `place`, where that slot goes.
    pub(crate) fn unlink(&mut self, pool: &[Slot], b: usize, place: u16)
        requires linked { Linked self.old.heads self.old.next pool.now }
        requires within { b < 64 }
        requires head { slice_index_or self.old.heads b None ≡ Some place }
        requires few { length pool.now ≤ 512 }
        ensures { (d : Slot) (ys : List Slot) → ys ≡ swap_remove pool.now place d → ranked earlier pool.now ≡ at pool.now place ∷ ranked earlier ys → Linked self.new.heads self.new.next ys }
    {
        self.heads[b] = self.next[place as usize];
        let last = (pool.len() - 1) as u16;
        self.next[place as usize] = self.next[last as usize];
        let moved = &pool[last as usize];
        let start = self.start(pool, moved, place);
        self.hints[moved.held.message.time as usize % HINTS] = place;
        if start == Some(last) {
            self.heads[bucket(moved)] = Some(place);
        } else if let Some(k) = leads_to(&self.next, start, last) {
            self.next[k as usize] = Some(place);
        }
    }
}
