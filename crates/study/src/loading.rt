// The loading of a study.
ghost use Rattle.std.specs.Prelude.{◌≡◌, ◌<◌, ◌≤◌, ◌^◌, length, true, false, is_ok};
ghost use Rattle.std.specs.Result.{result_err};
ghost use Rattle.event.specs.Starts.{numbered};
ghost use Rattle.group.specs.Groups.{only};
ghost use Rattle.account.specs.Account.{load};
ghost use Rattle.account.specs.Answers.{variant};
ghost use Rattle.follows.specs.Follows.{Alike};
ghost use Rattle.follows.specs.Rooms.{put_each};
ghost use Rattle.follows.specs.View.{loaded_view};
ghost use Rattle.study.specs.Loads.{load_fault};
ghost use Rattle.study.specs.Plain.{NeverBranched};
ghost use Rattle.study.specs.Promises.{Answers, Keeps, SameParts, Tells, view_of};

use crate::Study;
use crate::fault::StudyFault;
use crate::limits::Limits;
use calendar::{Calendar, Held};
use event::Start;
use group::Group;
use model::Model;

// Each starting message is put, for variant 0.
fn put_starts<C: Calendar>(calendar: &mut C, starts: &[Start])
    requires { length starts.now < 2 ^ 32 }
    ensures { C.meaning calendar.new ≡ put_each (only 0) (numbered 0 starts.now) (C.meaning calendar.old) }
{
    for (i, start) in starts.iter().enumerate() {
        let _ = calendar.put(Held {
            message: start.message(i as u32),
            group: Group::single(0),
        });
    }
}

impl<C: Calendar, M: Model> Study<C, M> {
    fn check_load(&self, starts: &[Start], end: u32) -> Result<(), StudyFault>
        ensures { result_err result ≡ load_fault self.now.register.loaded (M.meaning self.now.model).places (C.meaning self.now.calendar).room end starts.now }
    {
        if self.register.loaded {
            return Err(StudyFault::Loaded);
        }
        let limits = Limits {
            places: self.model.places(),
            capacity: self.calendar.capacity() as u16,
            end,
        };
        limits.check(starts)
    }

    // Variant 0 begins a day from a starting list that fits.
    fn begin(&mut self, starts: &[Start], end: u32)
        requires { length starts.now ≤ (C.meaning self.old.calendar).room }
        ensures held { Alike (M.meaning self.old.model).places (loaded_view (M.meaning self.old.model) starts.now end) (view_of C.meaning self.new) }
        ensures same { SameParts C.meaning self.old self.new }
    {
        self.register.load(end);
        self.copies.begin(&self.model);
        self.journal.clear();
        self.calendar.empty();
        put_starts(&mut self.calendar, starts);
    }

    // Begins the day of variant 0 from a starting list, and tells its number.
    pub fn load(&mut self, starts: &[Start], end: u32) -> Result<u8, StudyFault>
        ensures told { Tells C.meaning M.meaning self.old (load starts.now end) variant result }
        ensures unchanged { is_ok result ≡ false → self.new ≡ self.old }
        ensures same { SameParts C.meaning self.old self.new }
        ensures answer { Answers C.meaning M.meaning self.old (load starts.now end) variant result }
        ensures keeps { Keeps C.meaning M.meaning self.old (load starts.now end) self.new }
        ensures alone { is_ok result ≡ true → NeverBranched C.meaning M.meaning starts.now end self.new }
    {
        self.check_load(starts, end)?;
        self.begin(starts, end);
        Ok(0)
    }
}
