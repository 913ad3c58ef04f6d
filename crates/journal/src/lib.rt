// The journal of a study: what its steps took, oldest first, each entry with the variants that ran it.
#![tactic(auto)]

ghost use Rattle.std.specs.Prelude.{◌≡◌, ◌≤◌, List, [], ◌∷◌, ◌++◌, length, IfOk, map, Ok, Err, if◌then◌else◌, nat_lt, vec_len, vec_capacity};
ghost use Rattle.std.specs.List.{slice_get};
ghost use Rattle.calendar.specs.declared.Held.{Held};
ghost use Rattle.calendar.specs.Calls.{waiting, spread, leaves, erase};
ghost use Rattle.calendar.specs.Laws.{messages_of};

use calendar::Held;
use event::Message;
use group::VARIANTS;
use std::alloc::{AllocError, Global};
use std::marker::Model;

// The most entries that stand in a study's journal.
pub const ENTRIES: usize = 2048;

// Room for all is reserved, so no call allocates after `new`.
#[derive(Drop)]
pub struct Journal {
    entries: Vec<Held>,
    ghost short: { vec_len entries ≤ 2048 },
    ghost roomy: { 2048 ≤ vec_capacity entries },
}

// Callers see the entries.
impl Model for Journal {
    ghost Value = { List Held };

    ghost view = { λ j. j.entries.items };
}

impl Journal {
    pub fn new(memory: Global) -> Result<Journal, AllocError>
        ensures { IfOk result (λ j. j ≡ []) }
    {
        Ok(Journal {
            entries: Vec::with_capacity(memory, ENTRIES)?,
        })
    }

    pub fn clear(&mut self)
        ensures { self.new ≡ [] }
    {
        self.entries.clear();
    }

    // How many entries stand.
    pub fn count(&self) -> usize
        ensures value { result ≡ length self.now }
        ensures few { result ≤ ENTRIES }
    {
        self.entries.len()
    }

    // Goes behind the others. Handed back where the journal is full.
    pub fn push(&mut self, entry: Held) -> Result<(), Held>
        ensures told { result ≡ (if nat_lt (length self.old) ENTRIES then Ok tt else Err entry) }
        ensures entries { self.new ≡ (if nat_lt (length self.old) ENTRIES then self.old ++ entry ∷ [] else self.old) }
    {
        if self.count() >= ENTRIES {
            return Err(entry);
        }
        self.entries.push_reserved(entry);
        Ok(())
    }

    // How many events v has run.
    pub fn events(&self, v: u8) -> usize
        ensures { result ≡ length (waiting v self.now) }
    {
        self.entries.iter().filter(|h| h.group.has(v)).count()
    }

    // Entry i, from 0, of those that v ran.
    pub fn entry(&self, v: u8, i: usize) -> Option<Message>
        ensures { result ≡ slice_get (messages_of v self.now) i }
    {
        self.entries
            .iter()
            .filter(|h| h.group.has(v))
            .map(|h| h.message)
            .nth(i)
    }

    // Adds c to every entry that v ran.
    pub fn spread(&mut self, v: u8, c: u8)
        ensures { self.new ≡ spread v c self.old }
    {
        for h in self.entries.iter_mut() {
            h.group = h.joins(v, c).group;
        }
    }

    // Removes v from every entry, and drops every one that is then no variant's.
    pub fn erase(&mut self, v: u8)
        ensures { self.new ≡ erase v self.old }
    {
        if v < VARIANTS {
            leave_all(&mut self.entries, v);
            self.entries.retain(|h| h.is_wanted());
        }
    }
}

// Removes v from every entry.
fn leave_all(entries: &mut Vec<Held>, v: u8)
    ensures items { entries.new.items ≡ map (leaves v) entries.old.items }
    ensures len { vec_len entries.new ≡ vec_len entries.old }
    ensures capacity { vec_capacity entries.new ≡ vec_capacity entries.old }
{
    for h in entries.iter_mut() {
        *h = h.leaves(v);
    }
}
