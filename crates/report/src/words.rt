// The words for what happened.
ghost use Rattle.std.specs.Prelude.{◌≡◌, Some};
ghost use Rattle.report.specs.Words.{clock_words, moment_words, who_words, deed_words, line_words, unloading_words, fact_words, heading_words, verdict_words};

use crate::deed::{Deed, Who};
use crate::figures::Fact;
use crate::verdict::Verdict;
use std::fmt;

// Seconds of the day, shown as h:mm:ss.
#[derive(Clone, Copy)]
pub struct Clock(pub u32);

impl fmt::Display for Clock {
    ghost output = { λ c. Some (clock_words c.0) };

    fn fmt<W: fmt::Write>(&self, f: &mut fmt::Formatter<W>) -> fmt::Result {
        let hours = self.0 / 3600;
        let minutes = self.0 / 60 % 60;
        let seconds = self.0 % 60;
        write!(f, "{hours}:{minutes:02}:{seconds:02}")
    }
}

impl fmt::Display for Who {
    ghost output = { λ w. Some (who_words w) };

    fn fmt<W: fmt::Write>(&self, f: &mut fmt::Formatter<W>) -> fmt::Result {
        match self {
            Who::Dairy => write!(f, "dairy"),
            Who::Farm(farm) => write!(f, "farm {farm}"),
            Who::Tanker(tanker) => write!(f, "tanker {tanker}"),
            Who::Nobody => write!(f, "nobody"),
        }
    }
}

impl fmt::Display for Deed {
    ghost output = { λ d. Some (deed_words d) };

    fn fmt<W: fmt::Write>(&self, f: &mut fmt::Formatter<W>) -> fmt::Result {
        match self {
            Deed::Milked { farm, litres } => write!(f, "farm {farm} milked {litres} l"),
            Deed::Waits { farm } => write!(f, "farm {farm} waits for a tanker"),
            Deed::SentOut { tanker, farm } => write!(
                f,
                "dairy sends tanker {tanker} to farm {farm}"
            ),
            Deed::Free { tanker } => write!(f, "tanker {tanker} is free"),
            Deed::Drives { tanker, farm } => write!(f, "tanker {tanker} drives to farm {farm}"),
            Deed::Pumps {
                tanker,
                farm,
                litres,
            } => write!(f, "tanker {tanker} pumps at farm {farm}, {litres} l"),
            Deed::Leaves {
                tanker,
                farm,
                litres,
            } => write!(f, "tanker {tanker} leaves farm {farm} with {litres} l"),
            Deed::Unloads { tanker, litres } => write!(
                f,
                "tanker {tanker} unloads {litres} l at the dairy"
            ),
            Deed::Emptied { tanker } => write!(f, "tanker {tanker} is empty"),
            Deed::Ignores { who, kind, sender } => write!(
                f,
                "{who} ignores kind {kind} from {sender}"
            ),
        }
    }
}

// A moment as the clock shows it, and in seconds.
#[derive(Clone, Copy)]
pub struct Moment(pub u32);

impl fmt::Display for Moment {
    ghost output = { λ m. Some (moment_words m.0) };

    fn fmt<W: fmt::Write>(&self, f: &mut fmt::Formatter<W>) -> fmt::Result {
        let clock = Clock(self.0);
        let seconds = self.0;
        write!(f, "{clock} ({seconds} s)")
    }
}

// When, and what.
#[derive(Clone, Copy)]
pub struct Line {
    pub time: u32,
    pub deed: Deed,
}

impl fmt::Display for Line {
    ghost output = { λ l. Some (line_words l.time l.deed) };

    fn fmt<W: fmt::Write>(&self, f: &mut fmt::Formatter<W>) -> fmt::Result {
        let moment = Moment(self.time);
        let deed = self.deed;
        write!(f, "{moment} {deed}")
    }
}

// When a tanker last began to unload, if one did.
#[derive(Clone, Copy)]
struct Unloading(Option<u32>);

impl fmt::Display for Unloading {
    ghost output = { λ u. Some (unloading_words u.0) };

    fn fmt<W: fmt::Write>(&self, f: &mut fmt::Formatter<W>) -> fmt::Result {
        match self.0 {
            None => write!(f, "none"),
            Some(time) => {
                let moment = Moment(time);
                write!(f, "{moment}")
            }
        }
    }
}

// What it is, in twenty characters, and the figure.
impl fmt::Display for Fact {
    ghost output = { λ x. Some (fact_words x) };

    fn fmt<W: fmt::Write>(&self, f: &mut fmt::Formatter<W>) -> fmt::Result {
        match self {
            Fact::Received(litres) => write!(f, "litres received     {litres}"),
            Fact::Left { farm, litres } => write!(f, "left at farm {farm:<7}{litres}"),
            Fact::NotVisited { farm } => write!(f, "not visited         farm {farm}"),
            Fact::LastUnloading(last) => {
                let unloading = Unloading(*last);
                write!(f, "last unloading      {unloading}")
            }
            Fact::Events(n) => write!(f, "events run          {n}"),
            Fact::Lost(n) => write!(f, "lost after the end  {n}"),
        }
    }
}

// The day at a glance.
#[derive(Clone, Copy)]
pub struct Heading {
    pub farms: u8,
    pub tankers: u8,
    pub end: u32,
}

impl fmt::Display for Heading {
    ghost output = { λ h. Some (heading_words h.farms h.tankers h.end) };

    fn fmt<W: fmt::Write>(&self, f: &mut fmt::Formatter<W>) -> fmt::Result {
        let farms = self.farms;
        let tankers = self.tankers;
        let end = Moment(self.end);
        write!(f, "farms: {farms}, tankers: {tankers}, end of day: {end}")
    }
}

impl fmt::Display for Verdict {
    ghost output = { λ v. Some (verdict_words v) };

    fn fmt<W: fmt::Write>(&self, f: &mut fmt::Formatter<W>) -> fmt::Result {
        match self {
            Verdict::Agrees => write!(f, "run alone: agrees"),
            Verdict::DiffersAfter(events) => write!(f, "run alone: differs after {events} events"),
            Verdict::DiffersAt { place } => write!(f, "run alone: differs at place {place}"),
        }
    }
}
