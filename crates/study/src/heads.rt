// The messages that a step runs.
ghost use Rattle.std.specs.Prelude.{◌≡◌, take, vec_capacity};
ghost use Rattle.calendar.specs.Calls.{leading};

use calendar::{Calendar, Held};

// A message waits for one variant or more, so no more than sixteen have one key.
pub(crate) const HEADS: usize = 16;

// The messages with the smallest key.
pub(crate) fn find_heads<C: Calendar>(calendar: &C, heads: &mut Vec<Held>)
    requires { vec_capacity heads.old ≡ 16 }
    ensures heads { heads.new.items ≡ take 16 (leading (C.meaning calendar.now).held) }
    ensures room { vec_capacity heads.new ≡ vec_capacity heads.old }
{
    calendar.heads(heads);
}
