// The plan of a day, as its file tells it line by line.
ghost use Rattle.std.specs.Prelude.{◌≡◌, ◌+◌, ◌<◌, ◌^◌, ◌⊎◌, ℕ, List, IfOk, Ok, Err, MatchResult, OnOk, map, take, vec_items};
ghost use Rattle.dayfile.specs.Held.{sheet_of, answer, Memory, OutOfMemory};
ghost use Rattle.dayfile.specs.Laws.{Sound};
ghost use Rattle.dayfile.specs.Plans.{Sheet, noted, nothing_told, step, finished, read_text};
ghost use Rattle.dayfile.specs.Written.{Writable, written};

use crate::flaw::{Flaw, FlawKind};
use crate::line::{Entry, Settings};
use collection::Preference;
use event::Start;
use std::alloc::{AllocError, Global};
use std::marker::Model;
use text::Lines;

// A milking of the day: the line of the file that gives it, and its start.
#[derive(Clone, Copy, PartialEq, Eq, Debug)]
pub struct Milking {
    pub line: usize,
    pub start: Start,
}

// A choice of the day: the line of the file that gives it, and the preference of a variant that is branched from variant 0 once that has run so many events.
#[derive(Clone, Copy, PartialEq, Eq, Debug)]
pub struct Choice {
    pub line: usize,
    pub events: u32,
    pub preference: Preference,
}

// A collection day: how many farms and tankers, the end of day, and the milkings and the choices in the sequence of the file.
#[derive(Drop)]
pub struct Plan {
    pub farms: u8,
    pub tankers: u8,
    pub end: u32,
    pub milkings: Vec<Milking>,
    pub choices: Vec<Choice>,
}

impl Plan {
    // The starts in the sequence of the file.
    pub fn starts(&self, heap: Global) -> Result<Vec<Start>, AllocError>
        ensures { IfOk result (λ v. vec_items v ≡ map (λ m. m.start) (vec_items self.now.milkings)) }
    {
        self.milkings
            .iter()
            .map(|milking| milking.start)
            .collect(heap)
    }

    // The starts of the first milkings, at most so many, for a load that refuses a longer list whatever else is on it.
    pub fn first_starts(&self, heap: Global, most: usize) -> Result<Vec<Start>, AllocError>
        ensures { IfOk result (λ v. vec_items v ≡ take most (map (λ m. m.start) (vec_items self.now.milkings))) }
    {
        self.milkings
            .iter()
            .take(most)
            .map(|first| first.start)
            .collect(heap)
    }
}

// What the lines so far have told.
#[derive(Drop)]
struct Draft {
    // the line that comes next, from 1
    line: usize,
    settings: Settings,
    milkings: Vec<Milking>,
    choices: Vec<Choice>,
}

impl Model for Draft {
    ghost use Rattle.std.specs.Prelude.{vec_items};
    ghost use Rattle.dayfile.specs.Plans.{Told};

    ghost Value = { Told };

    ghost view = { λ a. record { line = a.line; settings = a.settings; milkings = vec_items a.milkings; choices = vec_items a.choices } };
}

impl Draft {
    fn new(heap: Global) -> Draft
        ensures { result ≡ nothing_told }
    {
        Draft {
            line: 1,
            settings: Settings::default(),
            milkings: Vec::new(heap),
            choices: Vec::new(heap),
        }
    }

    // Keeps what the next line says, if anything, and goes on to the line after it.
    fn note(&mut self, entry: Option<Entry>) -> Result<(), AllocError>
        requires { self.old.line + 1 < 2 ^ 64 }
        ensures { OnOk result (self.new ≡ noted self.old entry) }
    {
        let line = self.line;
        match entry {
            None => {}
            Some(Entry::Set(settings)) => self.settings = settings,
            Some(Entry::Milked(start)) => self.milkings.push(Milking { line, start })?,
            Some(Entry::After { events, preference }) => self.choices.push(Choice {
                line,
                events,
                preference,
            })?,
        }
        self.line += 1;
        Ok(())
    }

    // Takes the next line, or tells its flaw.
    fn take(&mut self, line: &[u8]) -> Result<(), Flaw>
        requires { self.old.line + 1 < 2 ^ 64 }
        ensures { MatchResult result (λ _. step self.old line.now ≡ Ok self.new) (λ f. Memory f ⊎ (step self.old line.now ≡ Err f)) }
    {
        let n = self.line;
        let entry = self.settings.entry(line).map_err(|kind| kind.at(n))?;
        self.note(entry).map_err(|_| FlawKind::NoMemory.at(n))
    }

    // The plan, where no line is left.
    fn finish(self) -> Result<Plan, Flaw>
        ensures { answer result ≡ finished self }
    {
        let n = self.line;
        let farms = self.settings.farms.ok_or(FlawKind::FarmsMissing.at(n))?;
        let tankers = self.settings.tankers.ok_or(FlawKind::TankersMissing.at(n))?;
        let end = self.settings.end.ok_or(FlawKind::EndMissing.at(n))?;
        Ok(Plan {
            farms,
            tankers,
            end,
            milkings: self.milkings,
            choices: self.choices,
        })
    }
}

// The plan that a day file tells, or its first flaw; in place of either, want of memory.
// A plan that is written out as a text, its milkings and choices mixed in any way, is read back from it.
pub fn read(heap: Global, text: &[u8]) -> Result<Plan, Flaw>
    ensures value { OutOfMemory result ⊎ (answer result ≡ read_text text.now) }
    ensures sound { IfOk result (λ p. Sound (sheet_of p)) }
    ensures back { (s : Sheet) (ls : List (List (List ℕ))) → Writable s ls → text.now ≡ written s ls → OutOfMemory result ⊎ (answer result ≡ Ok s) }
{
    let mut draft = Draft::new(heap);
    for line in Lines::of(text) {
        draft.take(line)?;
    }
    draft.finish()
}
