// Which variants a study has, and how far it is.
ghost use Rattle.std.specs.Prelude.{◌≡◌, ◌≤◌, Some, None, if◌then◌else◌, not};
ghost use Rattle.std.specs.Result.{result_err};
ghost use Rattle.group.specs.Groups.{has};
ghost use Rattle.study.specs.Registers.{blank_register, decided_register, loaded_register};
ghost use Rattle.study.specs.Faults.{decided_fault, loaded_fault, live_fault};

use crate::fault::StudyFault;
use group::{Group, VARIANTS};

#[derive(Clone, Copy)]
pub(crate) struct Register {
    pub(crate) loaded: bool,
    pub(crate) end: u32,
    // how many variants were made, whose numbers are those below it
    pub(crate) made: u8,
    pub(crate) live: Group,
    // live, with a permit that is not spent yet
    pub(crate) undecided: Group,
    pub(crate) executions: u32,
}

impl Register {
    // Before the first call.
    pub(crate) fn blank() -> Register
        ensures { result ≡ blank_register }
    {
        Register {
            loaded: false,
            end: 0,
            made: 0,
            live: Group::empty(),
            undecided: Group::empty(),
            executions: 0,
        }
    }

    // Variant 0 runs from now on.
    pub(crate) fn load(&mut self, end: u32)
        ensures { self.new ≡ loaded_register end }
    {
        *self = Register {
            loaded: true,
            end,
            made: 1,
            live: Group::single(0),
            undecided: Group::empty(),
            executions: 0,
        };
    }

    // v is undecided no more.
    pub(crate) fn decide(&mut self, v: u8)
        ensures { self.new ≡ decided_register v self.old }
    {
        self.undecided = self.undecided.without(v);
    }

    pub(crate) fn check_loaded(&self) -> Result<(), StudyFault>
        ensures { result_err result ≡ loaded_fault self.now.loaded }
    {
        if !self.loaded {
            return Err(StudyFault::NotLoaded);
        }
        Ok(())
    }

    // v is a live variant of a loaded study.
    pub(crate) fn check_live(&self, v: u8) -> Result<(), StudyFault>
        ensures { result_err result ≡ live_fault self.now.loaded (has self.now.live v) }
    {
        self.check_loaded()?;
        if !self.live.has(v) {
            return Err(StudyFault::Variant);
        }
        Ok(())
    }

    // v is a live variant of a loaded study, and its permit is spent.
    pub(crate) fn check_decided(&self, v: u8) -> Result<(), StudyFault>
        ensures { result_err result ≡ decided_fault self.now.loaded (has self.now.live v) (has self.now.undecided v) }
    {
        self.check_live(v)?;
        if self.undecided.has(v) {
            return Err(StudyFault::Undecided);
        }
        Ok(())
    }
}
