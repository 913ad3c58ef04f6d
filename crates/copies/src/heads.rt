// The messages that a step takes: which one each variant runs, and who leads the groups that run them.
ghost use Rattle.std.specs.Prelude.{◌≡◌, ℕ, ◌&&◌};
ghost use Rattle.event.specs.Lists.{first};
ghost use Rattle.calendar.specs.Calls.{waiting};
ghost use Rattle.group.specs.Groups.{count, has};
ghost use Rattle.copies.specs.Cells.{cell_of};
ghost use Rattle.copies.specs.Sharing.{leads_at};
ghost use Rattle.copies.specs.Executions.{executions, leads_message};

use crate::store::Copies;
use calendar::Held;
use group::Group;

// The message that v runs, if it has one.
pub fn message_for(heads: &[Held], v: u8) -> Option<Held>
    ensures { result ≡ first (waiting v heads.now) }
{
    heads.iter().copied().find(|h| h.group.has(v))
}

impl Copies {
    // Of a group, the smallest of all that share a copy of the place p.
    fn leaders_of(&self, group: Group, p: u8) -> Group
        ensures { (v : ℕ) → has result v ≡ (has group v && leads_at (cell_of self.now) group p v) }
    {
        let mut leaders = Group::empty();
        let mut rest = group;
        while let Some(v) = rest.least() {
            leaders = leaders.with(v);
            rest = rest.difference(self.sharers(group, p, v));
        }
        leaders
    }

    // Who leads a group that runs one of these messages, with nothing changed yet. An execution is to come for each.
    pub fn leaders(&self, heads: &[Held]) -> Group
        ensures members { (v : ℕ) → has result v ≡ leads_message (cell_of self.now) v (first (waiting v heads.now)) }
        ensures count { count (has result) 16 ≡ executions (cell_of self.now) heads.now }
    {
        let mut leaders = Group::empty();
        let mut seen = Group::empty();
        for h in heads {
            let others = self
                .leaders_of(h.group, h.message.receiver)
                .difference(seen);
            leaders = leaders.union(others);
            seen = seen.union(h.group);
        }
        leaders
    }
}
