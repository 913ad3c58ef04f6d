// The figures of a variant, with what they rest on.
ghost use Rattle.std.specs.Prelude.{◌≡◌, IfOk, map};
ghost use Rattle.sheet.specs.Rows.{giver_at, place_under, row_of};

use crate::standing::Standing;
use collection::DAIRY;
use report::Fact;
use std::alloc::{AllocError, Global};

// A figure, and the variant from which its place is taken over, if it rests on one place and that is taken over.
#[derive(Clone, Copy, PartialEq, Eq, Debug)]
pub struct Row {
    pub fact: Fact,
    pub giver: Option<u8>,
}

// The place that a figure rests on, if it rests on one: the dairy has the litres received, and a farm what is left there.
fn place_of(fact: &Fact) -> Option<u8>
    ensures { result ≡ place_under fact.now }
{
    match fact {
        Fact::Received(_) => Some(DAIRY),
        Fact::Left { farm, .. } => Some(*farm),
        _ => None,
    }
}

// The variant from which a place is taken over, as the standings of all places say.
fn giver(standings: &[Standing], place: Option<u8>) -> Option<u8>
    ensures { result ≡ giver_at standings.now place }
{
    standings.get(usize::from(place?))?.giver()
}

// The figures of a variant, whose places stand so, by their numbers.
pub fn rows(heap: Global, facts: &[Fact], standings: &[Standing]) -> Result<Vec<Row>, AllocError>
    ensures { IfOk result (λ v. v.items ≡ map (row_of standings.now) facts.now) }
{
    facts
        .iter()
        .map(|fact| Row {
            fact: *fact,
            giver: giver(standings, place_of(fact)),
        })
        .collect(heap)
}
