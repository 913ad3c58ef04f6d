// A script as the caller of its studies: its lines are read, and its answers printed, one after the other.
use anyhow::anyhow;
use history::{Answer, Call, Caller};
use refusal::Refusal;
use script::{Answer as Line, Command, ModelSize, read_line};
use session::{AnyCalendar, AnyModel, Talk};
use std::io::BufRead;
use study::fault::StudyFault;

// What a study is made of.
#[derive(Drop)]
pub(crate) struct Parts {
    pub(crate) calendar: AnyCalendar,
    pub(crate) model: AnyModel,
}

#[derive(Drop)]
pub(crate) struct Dialogue<'a, R: BufRead + Drop> {
    rt: &'a HostRuntime,
    script: R,
    // the last line that was read, and its number
    line: Vec<u8>,
    number: u64,
    talk: Talk,
    // what the next study is made of, once a line has asked for it
    pub(crate) parts: Option<Parts>,
    // why the script has come to its end early
    pub(crate) error: Option<anyhow::Error>,
}

impl<'a, R: BufRead + Drop> Dialogue<'a, R> {
    pub(crate) fn new(rt: &'a HostRuntime, script: R) -> Dialogue<'a, R> {
        Dialogue {
            rt,
            script,
            line: Vec::new(rt.alloc()),
            number: 0,
            talk: Talk::new(rt.alloc()),
            parts: None,
            error: None,
        }
    }

    fn say(&self, line: Line) -> anyhow::Result<()> {
        println!(self.rt; "{line}")?;
        Ok(())
    }

    // Reads the next line. Tells whether there is one.
    fn read_line(&mut self) -> anyhow::Result<bool> {
        self.line.clear();
        self.number = self.number.saturating_add(1);
        Ok(self.script.read_until(b'\n', &mut self.line)? > 0)
    }

    // What the last line asks for, if anything.
    fn command(&self) -> anyhow::Result<Option<Command>> {
        let line = self.line.as_slice();
        let number = self.number;
        read_line(line.strip_suffix(b"\n").unwrap_or(line)).map_err(|flaw| anyhow!(
            "line {number}: {flaw}"
        ))
    }

    // Makes what the next study is made of, or says why it is refused.
    fn make(&mut self, size: ModelSize) -> anyhow::Result<()> {
        match AnyModel::new(size) {
            Ok(model) => {
                let kind = self.talk.begin();
                let calendar = AnyCalendar::new(self.rt.alloc(), kind).map_err(StudyFault::from)?;
                self.parts = Some(Parts { calendar, model });
                self.say(Line::Model(size))
            }
            Err(fault) => self.say(Line::Refused(Refusal::from(fault))),
        }
    }

    // Does what a command says of the next study. Hands back any other.
    fn prepare(&mut self, command: Command) -> anyhow::Result<Option<Command>> {
        match command {
            Command::Calendar(kind) => self.talk.choose(kind),
            Command::Model(size) => self.make(size)?,
            Command::Start(start) => self.talk.start(start)?,
            command => return Ok(Some(command)),
        }
        Ok(None)
    }

    // The next command to a study; nothing where the script ends or asks for another study.
    fn next_command(&mut self) -> anyhow::Result<Option<Command>> {
        for _ in 0..u64::MAX {
            if self.parts.is_some() || !self.read_line()? {
                break;
            }
            let Some(command) = self.command()? else {
                continue;
            };
            if let Some(command) = self.prepare(command)? {
                return Ok(Some(command));
            }
        }
        Ok(None)
    }

    // Reads up to the first study. What is asked before is answered by none.
    pub(crate) fn begin(&mut self) -> anyhow::Result<()> {
        for _ in 0..u64::MAX {
            if self.next_command()?.is_none() {
                break;
            }
            self.say(Line::NoStudy)?;
        }
        Ok(())
    }

    // The next call to the study.
    fn next_call(&mut self) -> anyhow::Result<Option<Call>> {
        for _ in 0..u64::MAX {
            if let Some(call) = self.talk.next() {
                return Ok(Some(call));
            }
            let Some(command) = self.next_command()? else {
                break;
            };
            if let Some(call) = self.talk.ask(self.rt.alloc(), command)? {
                return Ok(Some(call));
            }
        }
        Ok(None)
    }
}

// What it reads and prints is the world's: it may give any call, and hears any answer.
impl<'a, R: BufRead + Drop> Caller for Dialogue<'a, R> {
    ghost gives = { λ before call after. Unit };

    ghost hears = { λ before call answer after. Unit };

    fn next(&mut self) -> Option<Call> {
        if self.error.is_some() {
            return None;
        }
        match self.next_call() {
            Ok(call) => call,
            Err(error) => {
                self.error = Some(error);
                None
            }
        }
    }

    fn tell(&mut self, _call: Call, answer: Answer) {
        if let Some(line) = self.talk.hear(answer) {
            self.error = self.say(line).err();
        }
    }
}
