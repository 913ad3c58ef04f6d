// A farm keeps its milk until a tanker pumps it, and announces it to the dairy. Word 1 is 1 once it has: words are numbers by the rule.
ghost use Rattle.std.specs.Prelude.{◌≡◌};
ghost use Rattle.collection.specs.Farm.{announced, filled, pumped, farm_reaction};
ghost use Rattle.collection.specs.Replies.{reacted};

use super::reaction::ignore;
use super::{Collection, DAIRY, Kind};
use model::{Arrival, Sends, Sent, Words};

// The litres that a tanker holds.
const TANK: u32 = 20_000;

fn announce() -> Sent
    ensures { result ≡ announced }
{
    Sent {
        receiver: DAIRY,
        delay: 1,
        kind: Kind::Ready.into(),
        data: 0,
    }
}

fn fill(words: &mut Words, arrival: Arrival) -> Sends
    ensures { reacted words.new result ≡ filled words.old arrival }
{
    words[0] = words[0].saturating_add(arrival.data);
    if words[1] != 0 {
        return Sends::Nothing;
    }
    words[1] = 1;
    Sends::One(announce())
}

fn pump(words: &mut Words, tanker: u8) -> Sends
    ensures { reacted words.new result ≡ pumped words.old tanker }
{
    let load = words[0].min(TANK);
    let loaded = Sent {
        receiver: tanker,
        delay: 1 + load / 10,
        kind: Kind::Loaded.into(),
        data: load,
    };
    words[0] -= load;
    if words[0] == 0 {
        words[1] = 0;
        return Sends::One(loaded);
    }
    words[1] = 1;
    Sends::Two(loaded, announce())
}

impl Collection {
    pub(super) fn at_farm(&self, words: &mut Words, arrival: Arrival) -> Sends
        ensures { reacted words.new result ≡ farm_reaction self.now.farms self.now.tankers words.old arrival }
    {
        match Kind::try_from(arrival.kind) {
            Ok(Kind::Milked) => fill(words, arrival),
            Ok(Kind::Pump) if self.is_tanker(arrival.sender) => pump(words, arrival.sender),
            _ => ignore(words, arrival),
        }
    }
}
