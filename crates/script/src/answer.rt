// What is printed in answer to a command.
ghost use Rattle.std.specs.Prelude.{◌≡◌, Some};
ghost use Rattle.text.specs.Written.{spaced};
ghost use Rattle.script.specs.Answers.{word_of_layer, message_words, place_words, answer_line};

use crate::command::ModelSize;
use day::Place;
use event::Message;
use refusal::{Layer, Refusal};
use std::fmt;

#[derive(Clone, Copy, PartialEq, Eq, Debug)]
pub enum Answer {
    // a study of this model was made
    Model(ModelSize),
    // with the first variant
    Loaded(u8),
    // with the executions of the step
    Ran(u32),
    // with the child
    Branched(u8),
    Decided(u8),
    Waived(u8),
    Retired(u8),
    Events(usize),
    Entry(Message),
    Place(Place),
    // with the message that waits, if one does
    Next(Option<Message>),
    Shares(bool),
    Group(u32),
    Totals {
        executions: u32,
        copies: u32,
        entries: usize,
    },
    // no permit is held under this number
    NoPermit(u8),
    // no study was made yet
    NoStudy,
    Refused(Refusal),
}

// The word for a layer.
fn layer_word(layer: Layer) -> &'static str
    ensures { result.now ≡ word_of_layer layer }
{
    match layer {
        Layer::Calendar => "calendar",
        Layer::Model => "model",
        Layer::Study => "study",
    }
}

// The numbers of a message: time, receiver, sender, number, kind and data.
#[derive(Clone, Copy)]
struct Fields(Message);

impl fmt::Display for Fields {
    ghost output = { λ fields. Some (spaced (message_words fields.0)) };

    fn fmt<W: fmt::Write>(&self, f: &mut fmt::Formatter<W>) -> fmt::Result {
        let Message {
            time,
            receiver,
            sender,
            number,
            kind,
            data,
        } = self.0;
        write!(f, "{time} {receiver} {sender} {number} {kind} {data}")
    }
}

// The words of a place, its order and how many messages it has sent.
#[derive(Clone, Copy)]
struct Standing(Place);

impl fmt::Display for Standing {
    ghost output = { λ standing. Some (spaced (place_words standing.0)) };

    fn fmt<W: fmt::Write>(&self, f: &mut fmt::Formatter<W>) -> fmt::Result {
        let Place { words, order, sent } = self.0;
        write!(
            f,
            "{} {} {} {} {} {} {} {} order {order} sent {sent}",
            words[0], words[1], words[2], words[3], words[4], words[5], words[6], words[7]
        )
    }
}

impl fmt::Display for Answer {
    ghost output = { λ answer. Some (answer_line answer) };

    fn fmt<W: fmt::Write>(&self, f: &mut fmt::Formatter<W>) -> fmt::Result {
        match self {
            Answer::Model(size) => write!(f, "model {size}"),
            Answer::Loaded(variant) => write!(f, "loaded {variant}"),
            Answer::Ran(executions) => write!(f, "ran {executions}"),
            Answer::Branched(child) => write!(f, "branched {child}"),
            Answer::Decided(variant) => write!(f, "decided {variant}"),
            Answer::Waived(variant) => write!(f, "waived {variant}"),
            Answer::Retired(variant) => write!(f, "retired {variant}"),
            Answer::Events(n) => write!(f, "events {n}"),
            Answer::Entry(message) => write!(f, "entry {}", Fields(*message)),
            Answer::Place(place) => write!(f, "place {}", Standing(*place)),
            Answer::Next(Some(message)) => write!(f, "next {}", Fields(*message)),
            Answer::Next(None) => write!(f, "next nothing"),
            Answer::Shares(true) => write!(f, "shares yes"),
            Answer::Shares(false) => write!(f, "shares no"),
            Answer::Group(variants) => write!(f, "group {variants}"),
            Answer::Totals {
                executions,
                copies,
                entries,
            } => write!(f, "totals {executions} {copies} {entries}"),
            Answer::NoPermit(variant) => write!(f, "no permit {variant}"),
            Answer::NoStudy => write!(f, "no study"),
            Answer::Refused(refusal) => write!(
                f,
                "refused {} {} {}",
                refusal.number,
                layer_word(refusal.layer),
                refusal.position
            ),
        }
    }
}
