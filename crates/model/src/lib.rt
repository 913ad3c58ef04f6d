// What a day is a day of: places with words, and how each reacts to a message.
#![tactic(auto)]

ghost use Rattle.std.specs.Prelude.{◌≡◌, ◌≤◌, length};
ghost use Rattle.event.specs.Lists.{first};
ghost use Rattle.model.specs.Faults.{refusal_of};
ghost use Rattle.model.specs.Meaning.{Meaning, Law, arrival_of, listed};

use event::Message;
use refusal::{Layer, Refusal};

// The words of a place.
pub type Words = [u32; 8];

// What a place is told of a message that reaches it. Its kind is a number, as a message's.
#[derive(Clone, Copy, PartialEq, Eq, Debug)]
pub struct Arrival {
    pub time: u32,
    pub sender: u8,
    pub kind: u8,
    pub data: u32,
}

impl From<&Message> for Arrival {
    ghost from_gives = { λ m a. a ≡ arrival_of m.now };

    fn from(m: &Message) -> Arrival {
        Arrival {
            time: m.time,
            sender: m.sender,
            kind: m.kind,
            data: m.data,
        }
    }
}

// A message as a reaction sends it: its number and its time follow from the sender. Its kind is a number, as a message's.
#[derive(Clone, Copy, PartialEq, Eq, Debug)]
pub struct Sent {
    pub receiver: u8,
    pub delay: u32,
    pub kind: u8,
    pub data: u32,
}

// The messages of one reaction, in the sequence of their numbers. At most two, by the type; a Vec would allocate at each event.
#[derive(Clone, Copy, PartialEq, Eq, Debug)]
pub enum Sends {
    Nothing,
    One(Sent),
    Two(Sent, Sent),
}

impl Sends {
    pub fn count(&self) -> u32
        ensures value { result ≡ length (listed self.now) }
        ensures few { result ≤ 2 }
    {
        match self {
            Sends::Nothing => 0,
            Sends::One(_) => 1,
            Sends::Two(_, _) => 2,
        }
    }

    pub fn first(&self) -> Option<Sent>
        ensures { result ≡ first (listed self.now) }
    {
        match self {
            Sends::Nothing => None,
            Sends::One(sent) | Sends::Two(sent, _) => Some(*sent),
        }
    }
}

// Why no model was made.
#[derive(Clone, Copy, PartialEq, Eq, Debug)]
pub enum ModelFault {
    // farms, tankers, places, a seed or a replication outside its limits
    Limits,
}

impl From<ModelFault> for Refusal {
    ghost from_gives = { λ fault r. r ≡ refusal_of fault };

    fn from(fault: ModelFault) -> Refusal {
        match fault {
            ModelFault::Limits => Refusal {
                number: 1,
                layer: Layer::Model,
                position: 0,
            },
        }
    }
}

// Places numbered from 0, each with eight words to begin with, and a reaction to every message.
// Putting the question leaves the model unchanged.
pub trait Model {
    ghost meaning: { Self → Meaning };

    // how many places there are
    fn places(&self) -> u8
        ensures { result ≡ (meaning self.now).places };

    // the words that a place begins with
    fn start(&self, place: u8) -> Words
        ensures { result ≡ (meaning self.now).start place };

    // What a place under an order does with a message: its words change in place.
    fn react(&self, place: u8, order: u32, words: &mut Words, arrival: Arrival) -> Sends
        ensures words { words.new ≡ ((meaning self.now).react place order words.old arrival).words }
        ensures sends { result ≡ ((meaning self.now).react place order words.old arrival).sends };

    // one place or more and at most 32, eight starting words each, receivers that are places and delays between 1 and 86,400
    ghost law: { (m : Self) → Law (meaning m) };
}
