// What a study answers to a call, as data.
use day::Place;
use event::Message;
use refusal::Refusal;

#[derive(Clone, Copy, PartialEq, Eq, Debug)]
pub enum Answer {
    // with the first variant
    Loaded(u8),
    // with the executions of the step
    Ran(u32),
    // with the child
    Branched(u8),
    Decided(u8),
    Waived(u8),
    Retired(u8),
    Events(usize),
    Entry(Message),
    Place(Place),
    // with the message that waits, if one does
    Next(Option<Message>),
    Shares(bool),
    // with how many variants stand in it
    Group(u32),
    Totals {
        executions: u32,
        copies: u32,
        entries: usize,
    },
    // no permit is held under this number, so that no call was made
    NoPermit(u8),
    Refused(Refusal),
}
