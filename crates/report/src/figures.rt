// The figures of a collection day.
ghost use Rattle.std.specs.Prelude.{◌≡◌, ◌+◌, ◌++◌, IfOk, OnOk, count_by};
ghost use Rattle.collection.specs.Kinds.{number_of};
ghost use Rattle.report.specs.Days.{the_day};
ghost use Rattle.report.specs.Summary.{some, is_milking_message, is_pumping_message, comes_from_tanker_to, is_sent, not_visited, last_unloading_of, all_sent_of, lost, left_facts, unvisited_up_to, facts_of};

use crate::ended::Ended;
use collection::{Collection, DAIRY, Kind};
use event::{Message, START_SENDER};
use std::alloc::{AllocError, Global};

// One figure of a day.
#[derive(Clone, Copy, PartialEq, Eq, Debug)]
pub enum Fact {
    Received(u32),
    Left { farm: u8, litres: u32 },
    NotVisited { farm: u8 },
    LastUnloading(Option<u32>),
    Events(usize),
    Lost(u64),
}

fn is_milking(farm: u8, m: &Message) -> bool
    ensures { result ≡ is_milking_message farm m.now }
{
    m.receiver == farm && m.kind == u8::from(Kind::Milked)
}

// Whether a message of this kind reaches the place from a tanker.
fn comes_from_tanker(model: &Collection, place: u8, kind: Kind, m: &Message) -> bool
    ensures { result ≡ comes_from_tanker_to model.now.farms model.now.tankers place (number_of kind) m.now }
{
    m.receiver == place && m.kind == u8::from(kind) && model.is_tanker(m.sender)
}

// Whether the farm has milked.
fn has_milked(day: &Ended, farm: u8) -> bool
    ensures { result ≡ some (is_milking_message farm) (the_day day.now).journal }
{
    day.journal.iter().any(|m| is_milking(farm, m))
}

// Whether a tanker has pumped at the farm.
fn was_pumped(day: &Ended, farm: u8) -> bool
    ensures { result ≡ some (is_pumping_message day.now.model.farms day.now.model.tankers farm) (the_day day.now).journal }
{
    day.journal
        .iter()
        .any(|m| comes_from_tanker(&day.model, farm, Kind::Pump, m))
}

// Whether the farm has milked, and no tanker has pumped there.
fn is_unvisited(day: &Ended, farm: u8) -> bool
    ensures { result ≡ not_visited day.now.model.farms day.now.model.tankers (the_day day.now).journal farm }
{
    has_milked(day, farm) && !was_pumped(day, farm)
}

// When a tanker last began to unload.
fn last_unloading(day: &Ended) -> Option<u32>
    ensures { result ≡ last_unloading_of day.now.model.farms day.now.model.tankers (the_day day.now).journal }
{
    day.journal
        .iter()
        .rfind(|m| comes_from_tanker(&day.model, DAIRY, Kind::Unload, m))
        .map(|m| m.time)
}

// How many of the messages were sent by a place.
fn count_sent(messages: &[Message]) -> u64
    ensures { result ≡ count_by is_sent messages.now }
{
    messages.iter().filter(|m| m.sender != START_SENDER).count() as u64
}

// How many messages the places have sent.
fn all_sent(day: &Ended) -> u64
    ensures { result ≡ all_sent_of (1 + day.now.model.farms + day.now.model.tankers) (the_day day.now) }
{
    let model = day.model;
    let places = 0..model.farms() + model.tankers() + 1;
    places.map(|p| u64::from(day.place(p).sent)).sum()
}

// How many of them were later than the end of day.
fn count_lost(day: &Ended) -> u64
    ensures { result ≡ lost (1 + day.now.model.farms + day.now.model.tankers) (the_day day.now) }
{
    all_sent(day).saturating_sub(count_sent(&day.journal))
}

// Adds what is left at each farm.
fn add_left(facts: &mut Vec<Fact>, day: &Ended) -> Result<(), AllocError>
    ensures { OnOk result (facts.new.items ≡ facts.old.items ++ left_facts day.now.model.farms (the_day day.now)) }
{
    let farms = 1..day.model.farms() + 1;
    facts.extend(farms.map(|farm| Fact::Left {
        farm,
        litres: day.place(farm).words[0],
    }))
}

// Adds the farms that no tanker has visited.
fn add_unvisited(facts: &mut Vec<Fact>, day: &Ended) -> Result<(), AllocError>
    ensures { OnOk result (facts.new.items ≡ facts.old.items ++ unvisited_up_to day.now.model.farms day.now.model.farms day.now.model.tankers (the_day day.now).journal) }
{
    let farms = 1..day.model.farms() + 1;
    facts.extend(
        farms
            .filter(|farm| is_unvisited(day, *farm))
            .map(|farm| Fact::NotVisited { farm }),
    )
}

// The summary of a day.
pub fn summary(heap: Global, day: &Ended) -> Result<Vec<Fact>, AllocError>
    ensures { IfOk result (λ v. v.items ≡ facts_of day.now.model.farms day.now.model.tankers (the_day day.now)) }
{
    let mut facts = Vec::new(heap);
    facts.push(Fact::Received(day.place(DAIRY).words[3]))?;
    add_left(&mut facts, day)?;
    add_unvisited(&mut facts, day)?;
    facts.push(Fact::LastUnloading(last_unloading(day)))?;
    facts.push(Fact::Events(day.journal.len()))?;
    facts.push(Fact::Lost(count_lost(day)))?;
    Ok(facts)
}
