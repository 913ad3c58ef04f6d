// The making of a lone day from a starting list.
ghost use Rattle.std.specs.Prelude.{◌≡◌, ℕ, ◌<◌, ◌≤◌, List, [], length, IfOk, None, vec_capacity, MatchResult, slice_index_or};
ghost use Rattle.std.specs.Option.{unwrap_or};
ghost use Rattle.std.specs.Result.{result_err};
ghost use Rattle.event.specs.Keys.{key_of};
ghost use Rattle.event.specs.Lists.{insert_all};
ghost use Rattle.event.specs.Starts.{numbered};
ghost use Rattle.day.specs.declared.fault.DayFault.TheVariants.{Memory};
ghost use Rattle.day.specs.Alone.{Alone, Deed, done, given};
ghost use Rattle.day.specs.Blank.{blank_place};
ghost use Rattle.day.specs.Day.{starting, starting_place};
ghost use Rattle.day.specs.Faults.{load_fault_of, start_fault_of};
ghost use Rattle.day.specs.Held.{day_of};
ghost use Rattle.day.specs.Tidy.{Tidy};

use crate::fault::DayFault;
use crate::lone::{CELLS, ENTRIES, LoneDay, Waiting};
use crate::place::Place;
use event::{Message, Start, insert_by_key};
use model::Model;
use std::alloc::{AllocError, Global};
use std::array;

// The latest end of day.
const LATEST_END: u32 = 1_000_000;

// What a starting list has to fit.
#[derive(Clone, Copy)]
struct Limits {
    places: u8,
    capacity: u16,
    end: u32,
}

impl Limits {
    // Refuses a starting message that does not fit at its position.
    fn check_start(self, i: usize, s: &Start) -> Result<(), DayFault>
        requires { i ≤ self.capacity }
        ensures { result_err result ≡ start_fault_of self.places self.capacity self.end i s.now }
    {
        if s.receiver >= self.places {
            return Err(DayFault::StartPlace(i as u32));
        }
        if s.time > self.end {
            return Err(DayFault::StartTime(i as u32));
        }
        if i >= usize::from(self.capacity) {
            return Err(DayFault::StartRoom(i as u32));
        }
        Ok(())
    }

    // Refuses the end first, and then each message in sequence.
    fn check(self, starts: &[Start]) -> Result<(), DayFault>
        ensures { result_err result ≡ load_fault_of self.places self.capacity self.end starts.now }
    {
        if self.end > LATEST_END {
            return Err(DayFault::End);
        }
        for (i, s) in starts.iter().enumerate() {
            self.check_start(i, s)?;
        }
        Ok(())
    }
}

// The starting list in the order of its keys, with room for as many messages as the capacity says.
fn starting_list(heap: Global, capacity: u16, starts: &[Start]) -> Result<Vec<Message>, AllocError>
    requires { length starts.now ≤ capacity }
    ensures { IfOk result (λ v. (v.items ≡ insert_all key_of (numbered 0 starts.now) []) × (capacity ≤ vec_capacity v)) }
{
    let mut list = Vec::with_capacity(heap, usize::from(capacity))?;
    for (i, s) in starts.iter().enumerate() {
        let _ = insert_by_key(&mut list, s.message(i as u32));
    }
    Ok(list)
}

// The cells of all places as the day begins.
fn starting_cells<M: Model>(model: &M) -> [Place; CELLS]
    ensures { (p : ℕ) → p < 32 → slice_index_or result p blank_place ≡ starting_place (M.meaning model.now) p }
{
    array::from_fn(|p| Place {
        words: model.start(p as u8),
        order: 0,
        sent: 0,
    })
}

impl<M: Model + Drop> LoneDay<M> {
    // The day as it begins, where its starting list fits.
    fn begin(
        heap: Global,
        model: M,
        limits: Limits,
        starts: &[Start],
    ) -> Result<LoneDay<M>, AllocError>
        requires places { limits.places ≡ (M.meaning model).places }
        requires fits { load_fault_of limits.places limits.capacity limits.end starts.now ≡ None }
        ensures day { IfOk result (λ d. day_of (M.meaning model) d ≡ starting (M.meaning model) starts.now) }
        ensures kept { IfOk result (λ d. (d.model ≡ model) × (d.waiting.end ≡ limits.end) × (d.waiting.capacity ≡ limits.capacity)) }
    {
        let cells = starting_cells(&model);
        let messages = starting_list(heap, limits.capacity, starts)?;
        let waiting = Waiting {
            capacity: limits.capacity,
            end: limits.end,
            messages,
        };
        let journal = Vec::with_capacity(heap, ENTRIES)?;
        Ok(LoneDay {
            model,
            cells,
            waiting,
            journal,
        })
    }

    // Makes a day of the starting list, and reserves all the room that it will need.
    pub fn load(
        heap: Global,
        model: M,
        capacity: u16,
        starts: &[Start],
        end: u32,
    ) -> Result<LoneDay<M>, DayFault>
        ensures told { MatchResult result (λ _. load_fault_of (M.meaning model).places capacity end starts.now ≡ None) (λ f. f ≡ unwrap_or (load_fault_of (M.meaning model).places capacity end starts.now) Memory) }
        ensures day { IfOk result (λ d. day_of (M.meaning model) d ≡ starting (M.meaning model) starts.now) }
        ensures kept { IfOk result (λ d. (d.model ≡ model) × (d.waiting.end ≡ end) × (d.waiting.capacity ≡ capacity)) }
        ensures alone { IfOk result (λ d. (deeds : List Deed) → Alone (M.meaning model) end starts.now (given (M.meaning model) end deeds (day_of (M.meaning model) d)) (done (M.meaning model) end deeds (day_of (M.meaning model) d))) }
        ensures tidy { IfOk result (λ d. (deeds : List Deed) → Tidy (M.meaning model) (done (M.meaning model) end deeds (day_of (M.meaning model) d))) }
    {
        let limits = Limits {
            places: model.places(),
            capacity,
            end,
        };
        limits.check(starts)?;
        Ok(LoneDay::begin(heap, model, limits, starts)?)
    }
}
