// A place of a day, and what an event was.
use event::Message;
use model::{Sends, Words};

// What a place holds: its words, the order that stands there, and how many messages it has sent.
#[derive(Clone, Copy, PartialEq, Eq, Debug)]
pub struct Place {
    pub words: Words,
    pub order: u32,
    pub sent: u32,
}

// An event: the message that ran, and what its receiver sent.
#[derive(Clone, Copy, PartialEq, Eq, Debug)]
pub struct Ran {
    pub message: Message,
    pub sends: Sends,
}
