// What the places of a collection day do with messages.
ghost use Rattle.std.specs.Prelude.{◌≡◌};
ghost use Rattle.collection.specs.Replies.{ignored, reacted};
ghost use Rattle.collection.specs.Rules.{meaning_of};
ghost use Rattle.collection.specs.Reactions.{law_kept};

use super::{Collection, DAIRY, Kind};
use model::{Arrival, Model as DayModel, Sends, Words};

// What any place does with a message that asks nothing of it: litres are kept apart in word 7.
pub(super) fn ignore(words: &mut Words, arrival: Arrival) -> Sends
    ensures { reacted words.new result ≡ ignored words.old arrival }
{
    if matches!(
        Kind::try_from(arrival.kind),
        Ok(Kind::Milked | Kind::Loaded | Kind::Unload)
    ) {
        words[7] = words[7].saturating_add(arrival.data);
    }
    Sends::Nothing
}

impl DayModel for Collection {
    ghost meaning = { λ m. meaning_of m.farms m.tankers };

    ghost law = { λ m. law_kept m.farms m.tankers m.limits };

    fn places(&self) -> u8 {
        1 + self.farms + self.tankers
    }

    fn start(&self, place: u8) -> Words {
        let mut words = [0; 8];
        if place == DAIRY {
            words[1] = self.all_free();
        }
        words
    }

    fn react(&self, place: u8, order: u32, words: &mut Words, arrival: Arrival) -> Sends {
        if place == DAIRY {
            self.at_dairy(order, words, arrival)
        } else if self.is_farm(u32::from(place)) {
            self.at_farm(words, arrival)
        } else if self.is_tanker(place) {
            self.at_tanker(words, arrival)
        } else {
            Sends::Nothing
        }
    }
}
