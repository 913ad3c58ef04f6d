// The readings of a lone day. None of them changes it.
ghost use Rattle.std.specs.Prelude.{◌≡◌, length};
ghost use Rattle.day.specs.Answers.{entry_answer, place_answer};
ghost use Rattle.day.specs.Held.{the_day};

use crate::fault::DayFault;
use crate::lone::LoneDay;
use crate::place::Place;
use event::Message;
use model::Model;

impl<M: Model> LoneDay<M> {
    // How many events have run.
    pub fn events(&self) -> usize
        ensures { result ≡ length (the_day M.meaning self.now).journal }
    {
        self.journal.len()
    }

    // Entry i of the journal, from 0.
    pub fn entry(&self, i: usize) -> Result<Message, DayFault>
        ensures { result ≡ entry_answer (the_day M.meaning self.now) i }
    {
        self.journal.get(i).copied().ok_or(DayFault::Entry)
    }

    // What has run, oldest first.
    pub fn journal(&self) -> &[Message]
        ensures { result.now ≡ (the_day M.meaning self.now).journal }
    {
        self.journal.as_slice()
    }

    // Words, order and send count of a place.
    pub fn place(&self, p: u8) -> Result<Place, DayFault>
        ensures { result ≡ place_answer (M.meaning self.now.model) (the_day M.meaning self.now) p }
    {
        if p >= self.model.places() {
            return Err(DayFault::Place);
        }
        Ok(self.cells[usize::from(p)])
    }

    // The waiting messages, in the order of their keys.
    pub fn waiting(&self) -> &[Message]
        ensures { result.now ≡ (the_day M.meaning self.now).waiting }
    {
        self.waiting.messages.as_slice()
    }

    // The model that the day is of.
    pub fn model(&self) -> &M
        ensures { result.now ≡ self.now.model }
    {
        &self.model
    }
}
