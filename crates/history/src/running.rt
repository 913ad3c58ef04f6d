// A whole history.
ghost use Rattle.std.specs.Prelude.{◌≡◌, ◌+◌, ◌≤◌, IfErr, IfOk, reverse, vec_capacity, vec_len};
ghost use Rattle.history.specs.Carried.{After, Carried, WaivedAll, answers_to};
ghost use Rattle.account.specs.Account.{empty};
ghost use Rattle.study.specs.Promises.{SameParts, Serves};
ghost use Rattle.study.specs.declared.fault.StudyFault.TheVariants.{Memory};

use crate::answer::Answer;
use crate::call::Call;
use crate::caller::Caller;
use crate::replying::reply;
use calendar::Calendar;
use model::Model;
use std::alloc::{AllocError, Global};
use study::Study;
use study::fault::StudyFault;
use study::permit::Permit;

// As many permits as a study can give.
const PERMITS: usize = 16;

// The study after a history, and the permits that no call has spent.
pub struct Ended<C, M> {
    pub study: Study<C, M>,
    pub permits: Vec<Permit>,
}

// No study was made. The permits are handed back.
pub struct Unmade {
    pub permits: Vec<Permit>,
    pub fault: StudyFault,
}

// A study, with room for the permits that it will give.
fn make<C: Calendar + Drop, M: Model + Drop>(
    heap: Global,
    calendar: C,
    model: M,
    permits: &mut Vec<Permit>,
) -> Result<Study<C, M>, StudyFault>
    ensures memory { IfErr result (λ f. f ≡ Memory) }
    ensures permits { permits.new.items ≡ permits.old.items }
    ensures kept { IfOk result (λ s. (s.model ≡ model) × ((C.meaning s.calendar).room ≡ (C.meaning calendar).room)) }
    ensures begun { IfOk result (λ s. Serves C.meaning M.meaning s (empty (M.meaning model))) }
    ensures room { IfOk result (λ _. vec_len permits.new + 16 ≤ vec_capacity permits.new) }
{
    permits.reserve(PERMITS).map_err(StudyFault::from)?;
    Study::new(heap, calendar, model)
}

// Makes a study, and carries out all calls that the caller gives, one after the other, those that are denied too.
// A decide or a waive brings the permit of its number, one of these or one that a branch has given.
pub fn history<C: Calendar + Drop, M: Model + Drop, K: Caller>(
    heap: Global,
    calendar: C,
    model: M,
    mut permits: Vec<Permit>,
    caller: &mut K,
) -> Result<Ended<C, M>, Unmade>
    ensures unmade { IfErr result (λ u. (u.fault ≡ Memory) × (u.permits.items ≡ permits.items) × (caller.new ≡ caller.old)) }
    ensures carried { IfOk result (λ e. Carried C.meaning M.meaning K.gives K.hears model (C.meaning calendar).room permits.items caller.old caller.new e.study e.permits.items) }
{
    let mut study = match make(heap, calendar, model, &mut permits) {
        Ok(study) => study,
        Err(fault) => return Err(Unmade { permits, fault }),
    };
    for _ in 0..u64::MAX {
        let Some(call) = caller.next() else {
            break;
        };
        let answer = reply(&mut study, &mut permits, &call);
        caller.tell(call, answer);
    }
    Ok(Ended { study, permits })
}

// The same, for a list of calls. Tells the answers in their order.
pub fn carry_out<C: Calendar + Drop, M: Model + Drop>(
    heap: Global,
    calendar: C,
    model: M,
    mut permits: Vec<Permit>,
    calls: &[Call],
) -> Result<(Ended<C, M>, Vec<Answer>), Unmade>
    ensures unmade { IfErr result (λ u. (u.fault ≡ Memory) × (u.permits.items ≡ permits.items)) }
    ensures answers { IfOk result (λ e. e.1.items ≡ answers_to (M.meaning model) (C.meaning calendar).room permits.items calls.now) }
    ensures all { IfOk result (λ e. After C.meaning M.meaning model (C.meaning calendar).room permits.items (reverse calls.now) e.0.study e.0.permits.items) }
{
    let mut answers = match Vec::with_capacity(heap, calls.len()) {
        Ok(answers) => answers,
        Err(error) => {
            return Err(Unmade {
                permits,
                fault: error.into(),
            });
        }
    };
    let mut study = match make(heap, calendar, model, &mut permits) {
        Ok(study) => study,
        Err(fault) => return Err(Unmade { permits, fault }),
    };
    for call in calls {
        answers.push_reserved(reply(&mut study, &mut permits, call));
    }
    Ok((Ended { study, permits }, answers))
}

// Spends each permit at the study on no order, so that none is left.
pub fn waive_all<C: Calendar, M: Model>(study: &mut Study<C, M>, mut permits: Vec<Permit>)
    ensures waived { WaivedAll C.meaning M.meaning study.old permits.items study.new }
    ensures same { SameParts C.meaning study.old study.new }
{
    while let Some(permit) = permits.pop() {
        let _ = study.waive(permit);
    }
    permits.destroy_empty();
}
