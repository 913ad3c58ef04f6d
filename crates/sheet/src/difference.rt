// Where the journals of two variants part.
ghost use Rattle.std.specs.Prelude.{◌≡◌, ◌↔◌, ◌<◌, IsNone, IfSome, slice_get};
ghost use Rattle.sheet.specs.Differences.{FirstDifference, IsFirst, time_at};

use event::Message;
use report::same_events;

// The first event at which two journals differ: its number, from 1, and its moment.
#[derive(Clone, Copy, PartialEq, Eq, Debug)]
pub struct Difference {
    pub number: usize,
    pub time: u32,
}

// The first position, from 0, at which two journals differ, or nothing where they are equal.
fn first_difference(own: &[Message], other: &[Message]) -> Option<usize>
    ensures none { IsNone result ↔ (own.now ≡ other.now) }
    ensures first { IfSome result (FirstDifference own.now other.now) }
{
    let same = same_events(own, other);
    if same < own.len().max(other.len()) {
        return Some(same);
    }
    None
}

// When the message at this position of the first journal runs; where that has ended, of the other one.
fn time(own: &[Message], other: &[Message], i: usize) -> u32
    ensures { result ≡ time_at own.now other.now i }
{
    own.get(i)
        .or(other.get(i))
        .map_or(0, |message| message.time)
}

impl Difference {
    // The first event at which a journal differs from another one, or nothing where the two are equal.
    pub fn of(own: &[Message], other: &[Message]) -> Option<Difference>
        ensures none { IsNone result ↔ (own.now ≡ other.now) }
        ensures first { IfSome result (IsFirst own.now other.now) }
    {
        let i = first_difference(own, other)?;
        Some(Difference {
            number: i + 1,
            time: time(own, other, i),
        })
    }
}
