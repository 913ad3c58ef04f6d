// Events and orders of a lone day.
ghost use Rattle.std.specs.Prelude.{◌≡◌, ℕ, ◌+◌, ◌^◌, ◌<◌, ◌≤◌, true, false, List, [], ◌∷◌, ◌++◌, length, is_ok, Ok, if◌then◌else◌, Some, vec_len, slice_index_or, slice_set};
ghost use Rattle.std.specs.Result.{result_err};
ghost use Rattle.event.specs.Lists.{first};
ghost use Rattle.model.specs.Meaning.{Lawful};
ghost use Rattle.event.specs.declared.Start.{Start};
ghost use Rattle.day.specs.Alone.{Alone, Order, order_now};
ghost use Rattle.day.specs.Answers.{event_answer, order_answer};
ghost use Rattle.day.specs.Tidy.{Tidy};
ghost use Rattle.day.specs.Faults.{event_fault_of};
ghost use Rattle.day.specs.Blank.{blank_place};
ghost use Rattle.day.specs.Held.{SameSetting, day_of, the_day};
ghost use Rattle.day.specs.Day.{event as next_day, ordered, reaction, place_after};

use crate::fault::DayFault;
use crate::lone::{CELLS, ENTRIES, LoneDay};
use crate::place::{Place, Ran};
use event::Message;
use model::{Model, Sends};

// The place runs m: its words change, and what it sends is counted.
fn run_at<M: Model>(model: &M, place: &mut Place, m: &Message) -> Sends
    requires { place.old.sent + 2 < 2 ^ 32 }
    ensures place { place.new ≡ place_after (M.meaning model.now) place.old m.now }
    ensures sends { result ≡ (reaction (M.meaning model.now) place.old m.now).sends }
    ensures lawful { Lawful (M.meaning model.now).places result }
    ensures few { (M.meaning model.now).places ≤ 32 }
{
    let sends = model.react(m.receiver, place.order, &mut place.words, m.into());
    place.sent += sends.count();
    sends
}

// The cell of its receiver runs m. Tells the number of the first message sent, and what is sent.
fn run_cell<M: Model>(model: &M, cells: &mut [Place; CELLS], m: &Message) -> (u32, Sends)
    requires within { m.now.receiver < 32 }
    requires few { (slice_index_or cells.old m.now.receiver blank_place).sent + 2 < 2 ^ 32 }
    ensures cells { cells.new ≡ slice_set cells.old m.now.receiver (place_after (M.meaning model.now) (slice_index_or cells.old m.now.receiver blank_place) m.now) }
    ensures number { result.0 ≡ (slice_index_or cells.old m.now.receiver blank_place).sent }
    ensures sends { result.1 ≡ (reaction (M.meaning model.now) (slice_index_or cells.old m.now.receiver blank_place) m.now).sends }
    ensures lawful { Lawful 32 result.1 }
{
    let cell = &mut cells[usize::from(m.receiver)];
    let number = cell.sent;
    let sends = run_at(model, cell, m);
    (number, sends)
}

impl<M: Model> LoneDay<M> {
    // Refuses the next event where there is no room for what it may send, or for its entry.
    fn check_event(&self) -> Result<(), DayFault>
        ensures { result_err result ≡ event_fault_of self.now.waiting.capacity (length self.now.waiting.messages.items) (length self.now.journal.items) }
    {
        if self.waiting.messages.len().saturating_sub(1) + 2 > usize::from(self.waiting.capacity) {
            return Err(DayFault::Room);
        }
        if self.journal.len() + 1 > ENTRIES {
            return Err(DayFault::Entries);
        }
        Ok(())
    }

    // Runs the first waiting message, for which there is room.
    fn run_first(&mut self) -> Ran
        requires some { 0 < vec_len self.old.waiting.messages }
        requires room { vec_len self.old.waiting.messages + 1 ≤ self.old.waiting.capacity }
        requires entries { vec_len self.old.journal < 2048 }
        ensures message { first self.old.waiting.messages.items ≡ Some result.message }
        ensures sends { result.sends ≡ (reaction (M.meaning self.old.model) ((the_day M.meaning self.old).place result.message.receiver) result.message).sends }
        ensures day { day_of (M.meaning self.old.model) self.new ≡ next_day (M.meaning self.old.model) self.old.waiting.end (the_day M.meaning self.old) }
        ensures same { SameSetting self.old self.new }
    {
        let message = self.waiting.take_first();
        let (number, sends) = run_cell(&self.model, &mut self.cells, &message);
        self.waiting.post_all(&message, number, &sends);
        self.journal.push_reserved(message);
        Ran { message, sends }
    }

    // Runs the waiting message with the smallest key; tells nothing where none waits.
    pub fn event(&mut self) -> Result<Option<Ran>, DayFault>
        ensures told { result ≡ event_answer (M.meaning self.old.model) self.old.waiting.capacity (the_day M.meaning self.old) }
        ensures day { day_of (M.meaning self.old.model) self.new ≡ (if is_ok result then next_day (M.meaning self.old.model) self.old.waiting.end (the_day M.meaning self.old) else the_day M.meaning self.old) }
        ensures unchanged { is_ok result ≡ false → self.new ≡ self.old }
        ensures same { SameSetting self.old self.new }
        ensures alone { (starts : List Start) (orders : List Order) → Alone (M.meaning self.old.model) self.old.waiting.end starts orders (the_day M.meaning self.old) → Alone (M.meaning self.old.model) self.old.waiting.end starts orders (day_of (M.meaning self.old.model) self.new) }
        ensures tidy { Tidy (M.meaning self.old.model) (the_day M.meaning self.old) → Tidy (M.meaning self.old.model) (day_of (M.meaning self.old.model) self.new) }
    {
        if self.waiting.messages.is_empty() {
            return Ok(None);
        }
        self.check_event()?;
        Ok(Some(self.run_first()))
    }

    // An order stands from now on at a place that is there.
    fn set_order(&mut self, place: u8, value: u32)
        requires { place < 32 }
        ensures day { day_of (M.meaning self.old.model) self.new ≡ ordered (the_day M.meaning self.old) place value }
        ensures same { SameSetting self.old self.new }
    {
        self.cells[usize::from(place)].order = value;
    }

    // An order stands at the place from now on.
    pub fn order(&mut self, place: u8, value: u32) -> Result<(), DayFault>
        ensures told { result ≡ order_answer (M.meaning self.old.model) place }
        ensures day { day_of (M.meaning self.old.model) self.new ≡ (if is_ok result then ordered (the_day M.meaning self.old) place value else the_day M.meaning self.old) }
        ensures unchanged { is_ok result ≡ false → self.new ≡ self.old }
        ensures same { SameSetting self.old self.new }
        ensures alone { is_ok result ≡ true → (starts : List Start) (orders : List Order) → Alone (M.meaning self.old.model) self.old.waiting.end starts orders (the_day M.meaning self.old) → Alone (M.meaning self.old.model) self.old.waiting.end starts (orders ++ order_now (the_day M.meaning self.old) place value ∷ []) (day_of (M.meaning self.old.model) self.new) }
        ensures tidy { Tidy (M.meaning self.old.model) (the_day M.meaning self.old) → Tidy (M.meaning self.old.model) (day_of (M.meaning self.old.model) self.new) }
    {
        if place >= self.model.places() {
            return Err(DayFault::Place);
        }
        self.set_order(place, value);
        Ok(())
    }
}
