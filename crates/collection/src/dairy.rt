// The dairy sends tankers to waiting farms, and lets them unload at its bay.
ghost use Rattle.std.specs.Prelude.{◌≡◌, ℕ, ◌&&◌, nat_le};
ghost use Rattle.collection.specs.Bits.{has};
ghost use Rattle.collection.specs.Dairy.{all_free_word, dispatched, unloaded, dairy_reaction};
ghost use Rattle.collection.specs.Replies.{reacted};

use super::bits::{with_bit, without_bit};
use super::reaction::ignore;
use super::{Collection, Kind};
use model::{Arrival, Sends, Sent, Words};

// The longest that a tanker is kept.
const DAY: u32 = 86_400;

// The bay serves the sender as soon as it has served the one before.
fn unload(words: &mut Words, arrival: Arrival) -> Sends
    ensures { reacted words.new result ≡ unloaded words.old arrival }
{
    let begin = arrival.time.max(words[2]);
    let end = begin.saturating_add(60 + arrival.data / 20);
    words[2] = end;
    words[3] = words[3].saturating_add(arrival.data);
    Sends::One(Sent {
        receiver: arrival.sender,
        delay: (end - arrival.time).clamp(1, DAY),
        kind: Kind::Emptied.into(),
        data: 0,
    })
}

impl Collection {
    // The word in which every tanker is free.
    pub(super) fn all_free(&self) -> u32
        ensures value { result ≡ all_free_word self.now.tankers }
        ensures bits { (k : ℕ) → has result k ≡ (nat_le 1 k && nat_le k self.now.tankers) }
    {
        (1..self.tankers + 1).fold(0, |free, tanker| with_bit(free, tanker))
    }

    // Sends a free tanker to a waiting farm, if there are both.
    fn dispatch(&self, order: u32, words: &mut Words) -> Sends
        ensures { reacted words.new result ≡ dispatched self.now.farms self.now.tankers order words.old }
    {
        let Some(farm) = self.chosen_farm(order, words[0]) else {
            return Sends::Nothing;
        };
        let Some(tanker) = self.free_tanker(words[1]) else {
            return Sends::Nothing;
        };
        words[0] = without_bit(words[0], farm);
        words[1] = without_bit(words[1], tanker);
        Sends::One(Sent {
            receiver: self.farms + tanker,
            delay: 1,
            kind: Kind::Go.into(),
            data: u32::from(farm),
        })
    }

    pub(super) fn at_dairy(&self, order: u32, words: &mut Words, arrival: Arrival) -> Sends
        ensures { reacted words.new result ≡ dairy_reaction self.now.farms self.now.tankers order words.old arrival }
    {
        match Kind::try_from(arrival.kind) {
            Ok(Kind::Ready) if self.is_farm(u32::from(arrival.sender)) => {
                words[0] = with_bit(words[0], arrival.sender);
                self.dispatch(order, words)
            }
            Ok(Kind::Free) if self.is_tanker(arrival.sender) => {
                words[1] = with_bit(words[1], arrival.sender - self.farms);
                self.dispatch(order, words)
            }
            Ok(Kind::Unload) if self.is_tanker(arrival.sender) => unload(words, arrival),
            _ => ignore(words, arrival),
        }
    }
}
