// PHOLD: places that pass messages on, each to a place and after a delay that are drawn.
#![tactic(auto)]

ghost use Rattle.std.specs.Prelude.{◌≡◌, ℕ, ◌≤◌, if◌then◌else◌, Ok, Err};
ghost use Rattle.std.specs.Result.{result_map_both};
ghost use Rattle.model.specs.declared.ModelFault.TheVariants.{Limits};
ghost use Rattle.phold.specs.Rules.{allowed, receiver_of, delay_of, meaning_of};
ghost use Rattle.phold.specs.Passing.{law_kept};

use model::{Arrival, Model as DayModel, ModelFault, Sends, Sent, Words};
use streams::{MODULUS, draw, multiplier, times};

#[cfg(test)]
mod tests;

// The most places, and so the streams that a replication has for itself.
const MOST_PLACES: u8 = 32;

// The kind of every message that is passed on. A number and no enum: places react to any kind alike, so there is nothing to tell apart.
pub const PASSED_ON: u8 = 0;

// So many places, whose streams follow from a seed and the number of a replication.
#[derive(Clone, Copy, PartialEq, Eq, Debug)]
pub struct Phold {
    places: u8,
    seed: u32,
    replication: u8,
    ghost limits: { (1 ≤ places) × (places ≤ 32) × (1 ≤ seed) × (seed ≤ 2147483646) × (replication ≤ 7) },
}

impl Phold {
    // Refuses all but 1 to 32 places, a seed from 1 to 2,147,483,646 and a replication up to 7.
    pub fn new(places: u8, seed: u32, replication: u8) -> Result<Phold, ModelFault>
        ensures { result_map_both {U = ℕ × ℕ × ℕ} (λ m. (m.places, m.seed, m.replication)) (λ e. e) result ≡ (if allowed places seed replication then Ok (places, seed, replication) else Err Limits) }
    {
        if places < 1 || places > MOST_PLACES || seed < 1 || seed >= MODULUS || replication > 7 {
            return Err(ModelFault::Limits);
        }
        Ok(Phold {
            places,
            seed,
            replication,
        })
    }

    // The place that a draw tells.
    fn receiver(&self, drawn: u32) -> u8
        ensures { result ≡ receiver_of self.now.places drawn }
    {
        (drawn % u32::from(self.places)) as u8
    }
}

// The delay that a draw tells, under an order.
fn delay(order: u32, drawn: u32) -> u32
    ensures { result ≡ delay_of order drawn }
{
    1 + drawn % (100 * (1 + order % 256))
}

impl DayModel for Phold {
    ghost meaning = { λ m. meaning_of m.places m.seed m.replication };

    ghost law = { λ m. law_kept m.places m.seed m.replication m.limits.0 m.limits.1 };

    fn places(&self) -> u8 {
        self.places
    }

    fn start(&self, place: u8) -> Words {
        let mut words = [0; 8];
        if place < self.places {
            words[0] = times(
                self.seed,
                multiplier(MOST_PLACES * self.replication + place),
            );
        }
        words
    }

    fn react(&self, place: u8, order: u32, words: &mut Words, arrival: Arrival) -> Sends {
        if place >= self.places {
            return Sends::Nothing;
        }
        let first = draw(words[0] % MODULUS);
        let second = draw(first);
        words[0] = second;
        words[1] = words[1].saturating_add(1);
        Sends::One(Sent {
            receiver: self.receiver(first),
            delay: delay(order, second),
            kind: PASSED_ON,
            data: arrival.data,
        })
    }
}
