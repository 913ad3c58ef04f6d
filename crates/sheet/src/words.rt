// The words of the sheet.
ghost use Rattle.std.specs.Prelude.{◌≡◌, Some};
ghost use Rattle.sheet.specs.Words.{attempt_words, cause_words, cost_words, difference_words, giver_words, label_words, place_words, preference_words, row_words, standing_words, title_words, trial_words, untried_words};

use crate::difference::Difference;
use crate::row::Row;
use crate::standing::{Cause, Standing};
use crate::trial::Trial;
use collection::Preference;
use report::{Moment, Who};
use std::fmt;

// Which farm the dairy sends a tanker to first.
#[derive(Clone, Copy)]
struct First(Preference);

impl fmt::Display for First {
    ghost output = { λ x. Some (preference_words x.0) };

    fn fmt<W: fmt::Write>(&self, f: &mut fmt::Formatter<W>) -> fmt::Result {
        match self.0 {
            Preference::Nearest => write!(f, "the nearest farm first"),
            Preference::Farthest => write!(f, "the farthest farm first"),
            Preference::Smallest => write!(f, "the smallest farm number first"),
        }
    }
}

// A variant begins to try something.
#[derive(Clone, Copy)]
pub struct Attempt {
    pub variant: u8,
    pub trial: Trial,
}

impl fmt::Display for Attempt {
    ghost output = { λ a. Some (attempt_words a.variant a.trial) };

    fn fmt<W: fmt::Write>(&self, f: &mut fmt::Formatter<W>) -> fmt::Result {
        let events = self.trial.events;
        let variant = self.variant;
        let first = First(self.trial.preference);
        write!(f, "after {events} events: variant {variant} tries {first}")
    }
}

// What a variant tries, if anything.
#[derive(Clone, Copy)]
struct Tried(Option<Trial>);

impl fmt::Display for Tried {
    ghost output = { λ x. Some (trial_words x.0) };

    fn fmt<W: fmt::Write>(&self, f: &mut fmt::Formatter<W>) -> fmt::Result {
        match self.0 {
            None => write!(f, "as planned"),
            Some(trial) => {
                let first = First(trial.preference);
                let events = trial.events;
                write!(f, "{first}, after {events} events")
            }
        }
    }
}

// The heading of a variant.
#[derive(Clone, Copy)]
pub struct Title {
    pub variant: u8,
    pub trial: Option<Trial>,
}

impl fmt::Display for Title {
    ghost output = { λ t. Some (title_words t.variant t.trial) };

    fn fmt<W: fmt::Write>(&self, f: &mut fmt::Formatter<W>) -> fmt::Result {
        let variant = self.variant;
        let tried = Tried(self.trial);
        write!(f, "variant {variant}: {tried}")
    }
}

// From which variant a figure is taken over, if from one.
#[derive(Clone, Copy)]
struct Giver(Option<u8>);

impl fmt::Display for Giver {
    ghost output = { λ x. Some (giver_words x.0) };

    fn fmt<W: fmt::Write>(&self, f: &mut fmt::Formatter<W>) -> fmt::Result {
        match self.0 {
            None => write!(f, ""),
            Some(from) => write!(f, ", taken over from variant {from}"),
        }
    }
}

impl fmt::Display for Row {
    ghost output = { λ row. Some (row_words row) };

    fn fmt<W: fmt::Write>(&self, f: &mut fmt::Formatter<W>) -> fmt::Result {
        let fact = self.fact;
        let giver = Giver(self.giver);
        write!(f, "{fact}{giver}")
    }
}

// Where the journal of a variant first differs from variant 0's.
#[derive(Clone, Copy)]
pub struct JournalLine(pub Option<Difference>);

impl fmt::Display for JournalLine {
    ghost output = { λ x. Some (difference_words x.0) };

    fn fmt<W: fmt::Write>(&self, f: &mut fmt::Formatter<W>) -> fmt::Result {
        match self.0 {
            None => write!(f, "journal             the same as variant 0's"),
            Some(difference) => {
                let number = difference.number;
                let moment = Moment(difference.time);
                write!(
                    f,
                    "journal             other than variant 0's from event {number} on, {moment}"
                )
            }
        }
    }
}

// A place's name, in twenty characters.
#[derive(Clone, Copy)]
struct Label(Who);

impl fmt::Display for Label {
    ghost output = { λ x. Some (label_words x.0) };

    fn fmt<W: fmt::Write>(&self, f: &mut fmt::Formatter<W>) -> fmt::Result {
        match self.0 {
            Who::Dairy => write!(f, "dairy               "),
            Who::Farm(farm) => write!(f, "farm {farm:<15}"),
            Who::Tanker(tanker) => write!(f, "tanker {tanker:<13}"),
            Who::Nobody => write!(f, "nobody              "),
        }
    }
}

impl fmt::Display for Cause {
    ghost output = { λ c. Some (cause_words c) };

    fn fmt<W: fmt::Write>(&self, f: &mut fmt::Formatter<W>) -> fmt::Result {
        match self {
            Cause::Plan => write!(f, "as planned"),
            Cause::Order => write!(f, "its own, by the order"),
            Cause::Event {
                variant,
                number,
                line,
            } => {
                let line = *line;
                write!(f, "its own, by event {number} of variant {variant}: {line}")
            }
        }
    }
}

impl fmt::Display for Standing {
    ghost output = { λ s. Some (standing_words s) };

    fn fmt<W: fmt::Write>(&self, f: &mut fmt::Formatter<W>) -> fmt::Result {
        match self {
            Standing::TakenOver { from } => write!(
                f,
                "taken over from variant {from}: reached by no chain of messages from an order of only one of the two"
            ),
            Standing::Own(cause) => {
                let cause = *cause;
                write!(f, "{cause}")
            }
        }
    }
}

// A place of a variant, and how it stands to the smaller variants.
#[derive(Clone, Copy)]
pub struct PlaceLine {
    pub who: Who,
    pub standing: Standing,
}

impl fmt::Display for PlaceLine {
    ghost output = { λ l. Some (place_words l.who l.standing) };

    fn fmt<W: fmt::Write>(&self, f: &mut fmt::Formatter<W>) -> fmt::Result {
        let label = Label(self.who);
        let standing = self.standing;
        write!(f, "{label}{standing}")
    }
}

// What the study has worked, and what separate runs of all variants would have.
#[derive(Clone, Copy)]
pub struct Cost {
    pub executions: u32,
    pub events: usize,
}

impl fmt::Display for Cost {
    ghost output = { λ c. Some (cost_words c.executions c.events) };

    fn fmt<W: fmt::Write>(&self, f: &mut fmt::Formatter<W>) -> fmt::Result {
        let executions = self.executions;
        let events = self.events;
        write!(
            f,
            "executions: {executions}, events that separate runs would have worked: {events}"
        )
    }
}

// A choice of this line of the file whose moment never comes, as the day has only so many events.
#[derive(Clone, Copy)]
pub struct Untried {
    pub line: usize,
    pub events: usize,
}

impl fmt::Display for Untried {
    ghost output = { λ u. Some (untried_words u.line u.events) };

    fn fmt<W: fmt::Write>(&self, f: &mut fmt::Formatter<W>) -> fmt::Result {
        let line = self.line;
        let events = self.events;
        write!(f, "line {line}: not tried, the day has {events} events")
    }
}
