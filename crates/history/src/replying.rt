// One call of a history, and what it is answered.
ghost use Rattle.std.specs.Prelude.{◌≡◌, ◌+◌, ◌<◌, ◌≤◌, vec_len, vec_capacity};
ghost use Rattle.std.specs.List.{insert};
ghost use Rattle.history.specs.declared.call.Call.TheVariants.{Branch as Branching, Decide as Deciding, Waive as Waiving};
ghost use Rattle.history.specs.Calls.{told_by};
ghost use Rattle.history.specs.Histories.{GoesOn, HasRoom, KeepsRoom, Replies};
ghost use Rattle.history.specs.Stands.{held_at};
ghost use Rattle.study.specs.Promises.{SameParts};

use crate::answer::Answer;
use crate::call::Call;
use calendar::Calendar;
use model::Model;
use refusal::Refusal;
use study::Study;
use study::fault::StudyFault;
use study::permit::{Denied, Permit};

// Where the first permit of this number stands.
fn find_permit(permits: &[Permit], variant: u8) -> Option<usize>
    ensures { result ≡ held_at variant permits.now }
{
    permits
        .iter()
        .position(|permit| permit.variant() == variant)
}

// Branches a variant, and keeps the permit.
fn branch<C: Calendar, M: Model>(
    study: &mut Study<C, M>,
    permits: &mut Vec<Permit>,
    variant: u8,
) -> Result<Answer, StudyFault>
    requires room { HasRoom C.meaning M.meaning study.old (vec_len permits.old) (vec_capacity permits.old) }
    ensures answer { Replies C.meaning M.meaning study.old permits.old.items (Branching variant) (told_by result) }
    ensures keeps { GoesOn C.meaning M.meaning study.old permits.old.items (Branching variant) study.new permits.new.items }
    ensures same { SameParts C.meaning study.old study.new }
    ensures room { KeepsRoom C.meaning M.meaning study.old permits.old.items (vec_len permits.old) (vec_capacity permits.old) (Branching variant) (vec_len permits.new) (vec_capacity permits.new) }
{
    let permit = study.branch(variant)?;
    let child = permit.variant();
    permits.push_reserved(permit);
    Ok(Answer::Branched(child))
}

// Puts a permit where it stood.
fn put_back(permits: &mut Vec<Permit>, i: usize, permit: Permit)
    requires place { i ≤ vec_len permits.old }
    requires room { vec_len permits.old < vec_capacity permits.old }
    ensures items { permits.new.items ≡ insert permits.old.items i permit }
    ensures len { vec_len permits.new ≡ vec_len permits.old + 1 }
    ensures capacity { vec_capacity permits.old ≤ vec_capacity permits.new }
{
    if let Err(_) = permits.insert(i, permit) {
        unreachable!();
    }
}

// Spends the permit of this number on an order. A denied call leaves it where it stands.
fn decide<C: Calendar, M: Model>(
    study: &mut Study<C, M>,
    permits: &mut Vec<Permit>,
    variant: u8,
    place: u8,
    order: u32,
) -> Result<Answer, StudyFault>
    ensures answer { Replies C.meaning M.meaning study.old permits.old.items (Deciding variant place order) (told_by result) }
    ensures keeps { GoesOn C.meaning M.meaning study.old permits.old.items (Deciding variant place order) study.new permits.new.items }
    ensures same { SameParts C.meaning study.old study.new }
    ensures room { KeepsRoom C.meaning M.meaning study.old permits.old.items (vec_len permits.old) (vec_capacity permits.old) (Deciding variant place order) (vec_len permits.new) (vec_capacity permits.new) }
{
    let Some(i) = find_permit(permits.as_slice(), variant) else {
        return Ok(Answer::NoPermit(variant));
    };
    match study.decide(permits.remove(i), place, order) {
        Ok(()) => Ok(Answer::Decided(variant)),
        Err(Denied { permit, fault }) => {
            put_back(permits, i, permit);
            Err(fault)
        }
    }
}

// Spends the permit of this number on no order, denied or not.
fn waive<C: Calendar, M: Model>(
    study: &mut Study<C, M>,
    permits: &mut Vec<Permit>,
    variant: u8,
) -> Result<Answer, StudyFault>
    ensures answer { Replies C.meaning M.meaning study.old permits.old.items (Waiving variant) (told_by result) }
    ensures keeps { GoesOn C.meaning M.meaning study.old permits.old.items (Waiving variant) study.new permits.new.items }
    ensures same { SameParts C.meaning study.old study.new }
    ensures room { KeepsRoom C.meaning M.meaning study.old permits.old.items (vec_len permits.old) (vec_capacity permits.old) (Waiving variant) (vec_len permits.new) (vec_capacity permits.new) }
{
    let Some(i) = find_permit(permits.as_slice(), variant) else {
        return Ok(Answer::NoPermit(variant));
    };
    study.waive(permits.remove(i))?;
    Ok(Answer::Waived(variant))
}

// What the study tells, or why it refuses.
fn told<C: Calendar, M: Model>(
    study: &mut Study<C, M>,
    permits: &mut Vec<Permit>,
    call: &Call,
) -> Result<Answer, StudyFault>
    requires room { HasRoom C.meaning M.meaning study.old (vec_len permits.old) (vec_capacity permits.old) }
    ensures answer { Replies C.meaning M.meaning study.old permits.old.items call.now (told_by result) }
    ensures keeps { GoesOn C.meaning M.meaning study.old permits.old.items call.now study.new permits.new.items }
    ensures same { SameParts C.meaning study.old study.new }
    ensures room { KeepsRoom C.meaning M.meaning study.old permits.old.items (vec_len permits.old) (vec_capacity permits.old) call.now (vec_len permits.new) (vec_capacity permits.new) }
{
    match call {
        Call::Load { starts, end } => Ok(Answer::Loaded(study.load(starts.as_slice(), *end)?)),
        Call::Step => Ok(Answer::Ran(study.step()?)),
        Call::Branch { variant } => branch(study, permits, *variant),
        Call::Decide {
            variant,
            place,
            order,
        } => decide(study, permits, *variant, *place, *order),
        Call::Waive { variant } => waive(study, permits, *variant),
        Call::Retire { variant } => {
            study.retire(*variant)?;
            Ok(Answer::Retired(*variant))
        }
        Call::Events { variant } => Ok(Answer::Events(study.events(*variant)?)),
        Call::Entry { variant, position } => Ok(Answer::Entry(study.entry(*variant, *position)?)),
        Call::Place { variant, place } => Ok(Answer::Place(study.place(*variant, *place)?)),
        Call::Next { variant } => Ok(Answer::Next(study.next(*variant)?)),
        Call::Shares {
            variant,
            other,
            place,
        } => Ok(Answer::Shares(study.shares(*variant, *other, *place)?)),
        Call::Group { variant, place } => Ok(Answer::Group(study.group(*variant, *place)?)),
        Call::Totals => {
            let (executions, copies, entries) = study.totals()?;
            Ok(Answer::Totals {
                executions,
                copies,
                entries,
            })
        }
    }
}

// What a call is answered: what the study tells, or its refusal.
pub(crate) fn reply<C: Calendar, M: Model>(
    study: &mut Study<C, M>,
    permits: &mut Vec<Permit>,
    call: &Call,
) -> Answer
    requires room { HasRoom C.meaning M.meaning study.old (vec_len permits.old) (vec_capacity permits.old) }
    ensures answer { Replies C.meaning M.meaning study.old permits.old.items call.now result }
    ensures keeps { GoesOn C.meaning M.meaning study.old permits.old.items call.now study.new permits.new.items }
    ensures same { SameParts C.meaning study.old study.new }
    ensures room { KeepsRoom C.meaning M.meaning study.old permits.old.items (vec_len permits.old) (vec_capacity permits.old) call.now (vec_len permits.new) (vec_capacity permits.new) }
{
    match told(study, permits, call) {
        Ok(answer) => answer,
        Err(fault) => Answer::Refused(Refusal::from(fault)),
    }
}
