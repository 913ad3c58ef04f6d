// Whether a day that has ended agrees with the day run alone.
ghost use Rattle.std.specs.Prelude.{◌≡◌, ◌↔◌, ℕ, ◌+◌, ◌<◌, ◌≤◌, length, IsTrue, IsNone, IfSome};
ghost use Rattle.std.specs.List.{slice_get};
ghost use Rattle.report.specs.Days.{the_day};
ghost use Rattle.report.specs.Verdicts.{Agrees, FirstUnlike, PartAfter, SameEvents, SamePlace, lone_day};

use crate::ended::Ended;
use collection::Collection;
use day::LoneDay;
use event::Message;

#[derive(Clone, Copy, PartialEq, Eq, Debug)]
pub enum Verdict {
    Agrees,
    // they part at the event after so many
    DiffersAfter(usize),
    DiffersAt { place: u8 },
}

fn is_same(ran: &[Message], alone: &[Message]) -> bool
    ensures { IsTrue result ↔ (ran.now ≡ alone.now) }
{
    ran == alone
}

// Whether both have run the same events, and both have ended.
fn has_same_events(day: &Ended, alone: &LoneDay<Collection>) -> bool
    ensures { IsTrue result ↔ SameEvents day.now alone.now }
{
    is_same(&day.journal, alone.journal()) && alone.waiting().is_empty()
}

// Whether event i, from 0, is the same in both.
fn is_same_event(ran: &[Message], alone: &[Message], i: usize) -> bool
    requires { i < length ran.now }
    ensures { IsTrue result ↔ (slice_get ran.now i ≡ slice_get alone.now i) }
{
    match alone.get(i) {
        Some(message) => *message == ran[i],
        None => false,
    }
}

// How many events are the same in both, up to one that is not or to the end of the first.
pub fn same_events(ran: &[Message], alone: &[Message]) -> usize
    ensures { PartAfter ran.now alone.now result }
{
    for i in 0..ran.len() {
        if !is_same_event(ran, alone, i) {
            return i;
        }
    }
    ran.len()
}

// Whether the place stands the same in both: its words, its order and its send count.
fn has_same_place(day: &Ended, alone: &LoneDay<Collection>, place: u8) -> bool
    requires { place ≤ day.now.model.farms + day.now.model.tankers }
    ensures { IsTrue result ↔ SamePlace day.now alone.now place }
{
    match alone.place(place) {
        Ok(stands) => stands == day.place(place),
        Err(_) => false,
    }
}

// The first place that does not stand the same in both.
fn first_unlike_place(day: &Ended, alone: &LoneDay<Collection>) -> Option<u8>
    ensures none { IsNone result → (p : ℕ) → p ≤ day.now.model.farms + day.now.model.tankers → SamePlace day.now alone.now p }
    ensures first { IfSome result (λ p. FirstUnlike day.now alone.now p) }
{
    for place in 0..day.model.farms() + day.model.tankers() + 1 {
        if !has_same_place(day, alone, place) {
            return Some(place);
        }
    }
    None
}

impl Verdict {
    // Compares what has run, and then every place.
    pub fn of(day: &Ended, alone: &LoneDay<Collection>) -> Verdict
        ensures agrees { (result ≡ Verdict.Agrees) ↔ Agrees day.now alone.now }
        ensures after { (n : ℕ) → result ≡ Verdict.DiffersAfter n → PartAfter (the_day day.now).journal (lone_day alone.now).journal n }
        ensures place { (p : ℕ) → result ≡ Verdict.DiffersAt p → FirstUnlike day.now alone.now p }
    {
        if !has_same_events(day, alone) {
            return Verdict::DiffersAfter(same_events(&day.journal, alone.journal()));
        }
        match first_unlike_place(day, alone) {
            Some(place) => Verdict::DiffersAt { place },
            None => Verdict::Agrees,
        }
    }
}
