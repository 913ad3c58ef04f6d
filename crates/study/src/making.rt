// The making of a study.
ghost use Rattle.std.specs.Prelude.{◌≡◌, ◌≤◌, IfOk, IfErr, [], vec_capacity};
ghost use Rattle.account.specs.Account.{empty};
ghost use Rattle.study.specs.declared.fault.StudyFault.TheVariants.{Memory};
ghost use Rattle.study.specs.Promises.{Serves};

use crate::Study;
use crate::fault::StudyFault;
use crate::heads::HEADS;
use crate::register::Register;
use calendar::Calendar;
use copies::Copies;
use journal::Journal;
use model::Model;
use std::alloc::Global;

impl<C: Calendar + Drop, M: Model + Drop> Study<C, M> {
    // A study that is not loaded. All its room is reserved here, and no other call allocates. The calendar is emptied.
    pub fn new(heap: Global, mut calendar: C, model: M) -> Result<Study<C, M>, StudyFault>
        ensures memory { IfErr result (λ f. f ≡ Memory) }
        ensures kept { IfOk result (λ s. (s.model ≡ model) × ((C.meaning s.calendar).room ≡ (C.meaning calendar).room)) }
        ensures begun { IfOk result (λ s. Serves C.meaning M.meaning s (empty (M.meaning model))) }
    {
        calendar.empty();
        let copies = Copies::new(heap)?;
        let journal = Journal::new(heap)?;
        let heads = Vec::with_capacity(heap, HEADS)?;
        Ok(Study {
            calendar,
            model,
            register: Register::blank(),
            copies,
            journal,
            heads,
        })
    }
}
