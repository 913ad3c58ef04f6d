// What a starting list has to fit.
ghost use Rattle.std.specs.Prelude.{◌≡◌, ◌≤◌};
ghost use Rattle.std.specs.Result.{result_err};
ghost use Rattle.study.specs.Loads.{room_fault, start_fault, list_fault};

use crate::fault::{StartFault, StudyFault};
use calendar::fault::CalendarFault;
use event::Start;

// The latest end of day.
const LATEST_END: u32 = 1_000_000;

#[derive(Clone, Copy)]
pub(crate) struct Limits {
    pub(crate) places: u8,
    pub(crate) capacity: u16,
    pub(crate) end: u32,
}

impl Limits {
    // What a put would answer, were so many messages held.
    fn check_room(self, held: usize) -> Result<(), CalendarFault>
        ensures { result_err result ≡ room_fault self.capacity held }
    {
        if held >= usize::from(self.capacity) {
            return Err(CalendarFault::Full);
        }
        Ok(())
    }

    // Refuses a starting message that does not fit where so many are held.
    fn check_start(self, held: usize, start: &Start) -> Result<(), StartFault>
        ensures { result_err result ≡ start_fault self.places self.capacity self.end held start.now }
    {
        if start.receiver >= self.places {
            return Err(StartFault::Place);
        }
        if start.time > self.end {
            return Err(StartFault::Time);
        }
        self.check_room(held)?;
        Ok(())
    }

    // Refuses the end first, and then each message in sequence.
    pub(crate) fn check(self, starts: &[Start]) -> Result<(), StudyFault>
        ensures { result_err result ≡ list_fault self.places self.capacity self.end starts.now }
    {
        if self.end > LATEST_END {
            return Err(StudyFault::End);
        }
        for (i, start) in starts.iter().enumerate() {
            if let Err(fault) = self.check_start(i, start) {
                return Err(StudyFault::Start {
                    position: i as u32,
                    fault,
                });
            }
        }
        Ok(())
    }
}
