// The readings of a study, which change nothing.
ghost use Rattle.std.specs.Prelude.{◌≡◌};
ghost use Rattle.std.specs.Result.{result_err};
ghost use Rattle.study.specs.Faults.{place_fault};
ghost use Rattle.account.specs.Account.{reading, events_of, entry_of, place_of, next_of, sharing, group_of, totals};
ghost use Rattle.account.specs.Answers.{number, message, waits, stands, shared};
ghost use Rattle.calendar.specs.Laws.{messages_of};
ghost use Rattle.event.specs.Lists.{first};
ghost use Rattle.study.specs.Promises.{Answers, Tells, totals_answer};

use crate::Study;
use crate::fault::StudyFault;
use calendar::Calendar;
use day::Place;
use event::Message;
use model::Model;

impl<C: Calendar, M: Model> Study<C, M> {
    // How many events v has run.
    pub fn events(&self, v: u8) -> Result<usize, StudyFault>
        ensures told { Tells C.meaning M.meaning self.now (reading (events_of v)) number result }
        ensures answer { Answers C.meaning M.meaning self.now (reading (events_of v)) number result }
    {
        self.register.check_live(v)?;
        Ok(self.journal.events(v))
    }

    // Entry i, from 0, of v's journal.
    pub fn entry(&self, v: u8, i: usize) -> Result<Message, StudyFault>
        ensures told { Tells C.meaning M.meaning self.now (reading (entry_of v i)) message result }
        ensures answer { Answers C.meaning M.meaning self.now (reading (entry_of v i)) message result }
    {
        self.register.check_live(v)?;
        self.journal.entry(v, i).ok_or(StudyFault::Entry)
    }

    // The place p of the model.
    pub(crate) fn check_place(&self, p: u8) -> Result<(), StudyFault>
        ensures { result_err result ≡ place_fault (M.meaning self.now.model).places p }
    {
        if p >= self.model.places() {
            return Err(StudyFault::Place);
        }
        Ok(())
    }

    // Words, order and send count of v's place p.
    pub fn place(&self, v: u8, p: u8) -> Result<Place, StudyFault>
        ensures told { Tells C.meaning M.meaning self.now (reading (place_of v p)) stands result }
        ensures answer { Answers C.meaning M.meaning self.now (reading (place_of v p)) stands result }
    {
        self.register.check_live(v)?;
        self.check_place(p)?;
        Ok(self.copies.place(v, p))
    }

    // The first message that v waits for.
    #[tactic(auto, using(crate::proofs::Readings::first_waiting))]
    fn first_message(&self, v: u8) -> Option<Message>
        ensures { result ≡ first (messages_of v (C.meaning self.now.calendar).held) }
    {
        let held = self.calendar.peek(v, 0)?;
        Some(held.message)
    }

    // The message that v runs next, or nothing.
    pub fn next(&self, v: u8) -> Result<Option<Message>, StudyFault>
        ensures told { Tells C.meaning M.meaning self.now (reading (next_of v)) waits result }
        ensures answer { Answers C.meaning M.meaning self.now (reading (next_of v)) waits result }
    {
        self.register.check_live(v)?;
        Ok(self.first_message(v))
    }

    // Whether v and w share the place p. One named twice does.
    pub fn shares(&self, v: u8, w: u8, p: u8) -> Result<bool, StudyFault>
        ensures told { Tells C.meaning M.meaning self.now (reading (sharing v w p)) shared result }
        ensures answer { Answers C.meaning M.meaning self.now (reading (sharing v w p)) shared result }
    {
        self.register.check_live(v)?;
        self.register.check_live(w)?;
        self.check_place(p)?;
        Ok(self.copies.shares(v, w, p))
    }

    // How many variants stand in v's group of the place p.
    pub fn group(&self, v: u8, p: u8) -> Result<u32, StudyFault>
        ensures told { Tells C.meaning M.meaning self.now (reading (group_of v p)) number result }
        ensures answer { Answers C.meaning M.meaning self.now (reading (group_of v p)) number result }
    {
        self.register.check_live(v)?;
        self.check_place(p)?;
        Ok(self.copies.sharers(self.register.live, p, v).size())
    }

    // Executions of all steps, copies in use, and entries of live variants.
    pub fn totals(&self) -> Result<(u32, u32, usize), StudyFault>
        ensures told { Tells C.meaning M.meaning self.now (reading totals) totals_answer result }
        ensures answer { Answers C.meaning M.meaning self.now (reading totals) totals_answer result }
    {
        self.register.check_loaded()?;
        let copies = self.copies.groups(self.register.live, self.model.places());
        Ok((self.register.executions, copies, self.journal.count()))
    }
}
