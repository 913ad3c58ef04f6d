// How far a script has come with a study: what its command still asks for, and what of the answers is said.
ghost use Rattle.std.specs.Prelude.{◌≡◌, [], ◌∷◌, ◌++◌, Option, IfOk, OnOk, OnErr, option_map};
ghost use Rattle.script.specs.declared.command.CalendarKind.TheVariants.{Heap};
ghost use Rattle.history.specs.Calls.{account_call};
ghost use Rattle.session.specs.declared.talk.Rest.TheVariants.{Nothing};
ghost use Rattle.session.specs.Talks.{asked_for, next_of, rest_asked, rest_told, rest_taken, said_of};

use crate::asking::call_of;
use crate::saying::line_of;
use event::Start;
use history::{Answer, Call};
use script::{Answer as Line, CalendarKind, Command};
use std::alloc::{AllocError, Global};
use std::mem;

// What a command still asks for.
#[derive(Clone, Copy)]
pub(crate) enum Rest {
    Nothing,
    // so many steps
    Steps(u32),
    // a journal, once the number of its events is told
    Journal(u8),
    // its entries from this position on
    Entries {
        variant: u8,
        position: usize,
        count: usize,
    },
}

// The calendar of the study that is made next, the starting list, and what the last command still asks for.
#[derive(Drop)]
pub struct Talk {
    calendar: CalendarKind,
    starts: Vec<Start>,
    rest: Rest,
}

impl Talk {
    // Before the first line.
    pub fn new(heap: Global) -> Talk
        ensures calendar { result.calendar ≡ Heap }
        ensures starts { result.starts.items ≡ [] }
        ensures rest { result.rest ≡ Nothing }
    {
        Talk {
            calendar: CalendarKind::Heap,
            starts: Vec::new(heap),
            rest: Rest::Nothing,
        }
    }

    // The next study has this calendar.
    pub fn choose(&mut self, kind: CalendarKind)
        ensures { self.new ≡ record self.old { calendar = kind } }
    {
        self.calendar = kind;
    }

    // One more message at the end of the starting list.
    pub fn start(&mut self, start: Start) -> Result<(), AllocError>
        ensures ok { OnOk result (self.new.starts.items ≡ self.old.starts.items ++ start ∷ []) }
        ensures err { OnErr result (self.new.starts.items ≡ self.old.starts.items) }
        ensures calendar { self.new.calendar ≡ self.old.calendar }
        ensures rest { self.new.rest ≡ self.old.rest }
    {
        self.starts.push(start)?;
        Ok(())
    }

    // A study is made, over the calendar that was chosen: the starting list begins anew.
    pub fn begin(&mut self) -> CalendarKind
        ensures chosen { result ≡ self.old.calendar }
        ensures calendar { self.new.calendar ≡ Heap }
        ensures starts { self.new.starts.items ≡ [] }
        ensures rest { self.new.rest ≡ Nothing }
    {
        self.starts.clear();
        self.rest = Rest::Nothing;
        mem::replace(&mut self.calendar, CalendarKind::Heap)
    }

    // The next call that the last command still asks for.
    pub fn next(&mut self) -> Option<Call>
        ensures call { result ≡ next_of self.old.rest }
        ensures rest { self.new ≡ record self.old { rest = rest_taken self.old.rest } }
    {
        match self.rest {
            Rest::Steps(left) if left > 0 => {
                self.rest = Rest::Steps(left - 1);
                Some(Call::Step)
            }
            Rest::Entries {
                variant,
                position,
                count,
            } if position < count => {
                self.rest = Rest::Entries {
                    variant,
                    position: position + 1,
                    count,
                };
                Some(Call::Entry { variant, position })
            }
            _ => None,
        }
    }

    // The first call that a command asks for. A load takes the starting list as it stands.
    pub fn ask(&mut self, heap: Global, command: Command) -> Result<Option<Call>, AllocError>
        ensures call { IfOk result (λ call. option_map account_call call ≡ asked_for self.old.starts.items command) }
        ensures rest { IfOk result (λ _. self.new ≡ record self.old { rest = rest_asked command }) }
    {
        match command {
            Command::Load { end } => {
                let mut starts = Vec::with_capacity(heap, self.starts.len())?;
                starts.extend_from_slice(self.starts.as_slice())?;
                self.rest = Rest::Nothing;
                Ok(Some(Call::Load { starts, end }))
            }
            Command::Step { count } => {
                self.rest = Rest::Steps(count);
                Ok(self.next())
            }
            Command::Journal { variant } => {
                self.rest = Rest::Journal(variant);
                Ok(Some(Call::Events { variant }))
            }
            command => {
                self.rest = Rest::Nothing;
                Ok(call_of(command))
            }
        }
    }

    // What is said of an answer, if anything. Steps are over once one is refused, and a journal goes on with its entries.
    pub fn hear(&mut self, answer: Answer) -> Option<Line>
        ensures said { result ≡ said_of self.old.rest answer }
        ensures rest { self.new ≡ record self.old { rest = rest_told self.old.rest answer } }
    {
        match (self.rest, answer) {
            (Rest::Journal(variant), Answer::Events(count)) => {
                self.rest = Rest::Entries {
                    variant,
                    position: 0,
                    count,
                };
                None
            }
            (Rest::Steps(_), Answer::Refused(_)) => {
                self.rest = Rest::Nothing;
                Some(line_of(answer))
            }
            _ => Some(line_of(answer)),
        }
    }
}
