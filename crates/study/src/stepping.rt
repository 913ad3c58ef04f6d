// One step of a study: the messages with the smallest key are taken, and each group that has one runs it once.
ghost use Rattle.std.specs.Prelude.{◌≡◌, ℕ, List, ◌+◌, ◌^◌, ◌<◌, ◌≤◌, ◌++◌, length, take, drop, false, true, is_ok, vec_len};
ghost use Rattle.std.specs.Result.{result_err};
ghost use Rattle.account.specs.Account.{step};
ghost use Rattle.account.specs.Answers.{ran};
ghost use Rattle.calendar.specs.Contents.{holding};
ghost use Rattle.event.specs.Lists.{first};
ghost use Rattle.calendar.specs.Calls.{waiting};
ghost use Rattle.day.specs.Day.{reaction, place_after};
ghost use Rattle.follows.specs.Steps.{leads_in, ran_group, turn_of, turns};
ghost use Rattle.event.specs.declared.Start.{Start};
ghost use Rattle.study.specs.Plain.{NeverBranched};
ghost use Rattle.study.specs.Promises.{Answers, Keeps, SameParts, SameHeld, view_of};
ghost use Rattle.follows.specs.Ready.{Ready};
ghost use Rattle.study.specs.Turns.{Led, TurnReady, TurnsReady, step_fault};

use crate::Study;
use crate::fault::StudyFault;
use crate::heads::find_heads;
use crate::posting::Post;
use calendar::{Calendar, Held};
use copies::heads::message_for;
use day::Place;
use event::Message;
use group::Group;
use journal::{ENTRIES, Journal};
use model::{Model, Sends};

// So many messages are taken in turn, and each makes an entry.
fn take_heads<C: Calendar>(calendar: &mut C, journal: &mut Journal, count: usize)
    requires entries { length journal.old + count ≤ 2048 }
    requires held { count ≤ length (C.meaning calendar.old).held }
    ensures calendar { C.meaning calendar.new ≡ holding (drop count (C.meaning calendar.old).held) (C.meaning calendar.old) }
    ensures journal { journal.new ≡ journal.old ++ take count (C.meaning calendar.old).held }
{
    for _i in 0..count {
        if let Some(head) = calendar.take() {
            let _ = journal.push(head);
        }
    }
}

// The place runs m: its words change, and what it sends is counted.
fn run_at<M: Model>(model: &M, place: &mut Place, m: &Message) -> Sends
    ensures place { place.old.sent + 2 < 2 ^ 32 → place.new ≡ place_after (M.meaning model.now) place.old m.now }
    ensures sends { result ≡ (reaction (M.meaning model.now) place.old m.now).sends }
{
    let sends = model.react(m.receiver, place.order, &mut place.words, m.into());
    place.sent = place.sent.saturating_add(sends.count());
    sends
}

impl<C: Calendar, M: Model> Study<C, M> {
    // The group of v runs its message once, on a copy of its own.
    fn run_group(&mut self, head: &Held, v: u8)
        ensures held { Ready (M.meaning self.old.model) (C.meaning self.old.calendar).room (view_of C.meaning self.old) head.now v → view_of C.meaning self.new ≡ ran_group (M.meaning self.old.model) (view_of C.meaning self.old) head.now v }
        ensures same { SameParts C.meaning self.old self.new }
        ensures heads { self.new.heads ≡ self.old.heads }
    {
        let receiver = head.message.receiver;
        let group = self.copies.sharers(head.group, receiver, v);
        let cell = self.copies.target(self.register.live, group, self.model.places(), receiver, v);
        let mut place = self.copies.place(v, receiver);
        let number = place.sent;
        let sends = run_at(&self.model, &mut place, &head.message);
        self.copies.put(group, receiver, cell, place);
        let post = Post {
            group,
            end: self.register.end,
        };
        post.put_all(&mut self.calendar, &head.message, number, &sends);
        self.register.executions = self.register.executions.saturating_add(1);
    }

    // The turn of v, which leads: its group runs its message.
    fn run_turn(&mut self, v: u8)
        ensures held { TurnReady (M.meaning self.old.model) (C.meaning self.old.calendar).room self.old.heads.items (view_of C.meaning self.old) v → leads_in (view_of C.meaning self.old) v (first (waiting v self.old.heads.items)) ≡ true → view_of C.meaning self.new ≡ turn_of (M.meaning self.old.model) (view_of C.meaning self.old) v (first (waiting v self.old.heads.items)) }
        ensures same { SameParts C.meaning self.old self.new }
        ensures heads { self.new.heads ≡ self.old.heads }
    {
        if let Some(head) = message_for(&self.heads, v) {
            self.run_group(&head, v);
        }
    }

    // The turns of all variants, of which those that do not lead do nothing.
    fn run_turns(&mut self, leaders: Group)
        ensures held { TurnsReady (M.meaning self.old.model) (C.meaning self.old.calendar).room self.old.heads.items (view_of C.meaning self.old) → Led (M.meaning self.old.model) self.old.heads.items (view_of C.meaning self.old) leaders → view_of C.meaning self.new ≡ turns (M.meaning self.old.model) self.old.heads.items (view_of C.meaning self.old) 16 }
        ensures same { SameParts C.meaning self.old self.new }
    {
        let mut rest = leaders;
        while let Some(v) = rest.least() {
            self.run_turn(v);
            rest = rest.without(v);
        }
    }

    // Refuses a step of so many executions where nothing is loaded, or where there is no room for what it may send, for its entries, or for its copies.
    fn check_step(&self, executions: u32) -> Result<(), StudyFault>
        requires { executions ≤ 16 }
        ensures { result_err result ≡ step_fault (M.meaning self.now.model) (C.meaning self.now.calendar).room (view_of C.meaning self.now) self.now.heads.items executions }
    {
        self.register.check_loaded()?;
        let taken = self.heads.len();
        if self.calendar.count() + 2 * executions as usize > self.calendar.capacity() + taken {
            return Err(StudyFault::Room);
        }
        if self.journal.count() + taken > ENTRIES {
            return Err(StudyFault::Entries);
        }
        let receiver = self.heads.first().map_or(0, |h| h.message.receiver);
        if !self.fits_stepped(receiver) {
            return Err(StudyFault::Copies);
        }
        Ok(())
    }

    // The messages with the smallest key that waits in a live variant are run, each once for every group that shares the receiver. Tells how many groups ran, 0 where nothing waits.
    pub fn step(&mut self) -> Result<u32, StudyFault>
        ensures unchanged { is_ok result ≡ false → SameHeld self.old self.new }
        ensures same { SameParts C.meaning self.old self.new }
        ensures answer { Answers C.meaning M.meaning self.old step ran result }
        ensures keeps { Keeps C.meaning M.meaning self.old step self.new }
        ensures alone { (starts : List Start) (end : ℕ) → NeverBranched C.meaning M.meaning starts end self.old → NeverBranched C.meaning M.meaning starts end self.new }
    {
        find_heads(&self.calendar, &mut self.heads);
        let leaders = self.copies.leaders(&self.heads);
        let executions = leaders.size();
        self.check_step(executions)?;
        take_heads(&mut self.calendar, &mut self.journal, self.heads.len());
        self.run_turns(leaders);
        Ok(executions)
    }
}
