// A study runs a plan.
ghost use Rattle.std.specs.Prelude.{◌≡◌, ℕ, ◌≤◌, List, IfOk, Ok, min, true};
ghost use Rattle.account.specs.Account.{decide};
ghost use Rattle.account.specs.Answers.{done};
ghost use Rattle.event.specs.declared.Start.{Start};
ghost use Rattle.pace.specs.Checksums.{AllSummed};
ghost use Rattle.pace.specs.Paces.{InService, Paced, Told};
ghost use Rattle.study.specs.Plain.{NeverBranched};
ghost use Rattle.study.specs.Promises.{SameParts, Tells};

use crate::checksum::with_journal;
use crate::plan::{Figures, Plan};
use calendar::Calendar;
use event::Start;
use group::VARIANTS;
use model::Model;
use std::alloc::Global;
use study::Study;
use study::fault::StudyFault;
use study::permit::{Denied, Permit};

const END: u32 = 1_000_000;

// So many steps, or fewer where one is refused or has nothing to run. Tells how many ran.
fn step<C: Calendar, M: Model>(study: &mut Study<C, M>, count: u32) -> u32
    ensures few { result ≤ count }
    ensures same { SameParts C.meaning study.old study.new }
    ensures keeps { InService C.meaning M.meaning study.old → InService C.meaning M.meaning study.new }
    ensures alone { (starts : List Start) (end : ℕ) → NeverBranched C.meaning M.meaning starts end study.old → NeverBranched C.meaning M.meaning starts end study.new }
{
    for i in 0..count {
        match study.step() {
            Ok(0) | Err(_) => return i,
            Ok(_) => {}
        }
    }
    count
}

// Spends the permit on an order, or on none where that is denied, which is then told.
fn spend<C: Calendar, M: Model>(
    study: &mut Study<C, M>,
    permit: Permit,
    place: u8,
    order: u32,
) -> Result<(), StudyFault>
    ensures given { IfOk result (λ r. Tells C.meaning M.meaning study.old (decide permit place order) (λ _. done) (Ok r)) }
    ensures same { SameParts C.meaning study.old study.new }
    ensures keeps { InService C.meaning M.meaning study.old → InService C.meaning M.meaning study.new }
{
    match study.decide(permit, place, order) {
        Ok(()) => Ok(()),
        Err(Denied { permit, fault }) => {
            study.waive(permit)?;
            Err(fault)
        }
    }
}

// A child of variant 0. It is given its number as an order, at one of the first `ordered` places in turn; at none where that is 0.
fn add_child<C: Calendar, M: Model>(study: &mut Study<C, M>, ordered: u8) -> Result<(), StudyFault>
    ensures same { SameParts C.meaning study.old study.new }
    ensures keeps { InService C.meaning M.meaning study.old → InService C.meaning M.meaning study.new }
{
    let permit = study.branch(0)?;
    let child = permit.variant();
    match child.checked_rem(ordered) {
        Some(place) => spend(study, permit, place, child.into()),
        None => study.waive(permit),
    }
}

// Variant 0 has so many variants beside it from now on, or fewer where one is refused.
fn add_children<C: Calendar, M: Model>(
    study: &mut Study<C, M>,
    variants: u8,
    ordered: u8,
) -> Result<(), StudyFault>
    ensures same { SameParts C.meaning study.old study.new }
    ensures keeps { InService C.meaning M.meaning study.old → InService C.meaning M.meaning study.new }
    ensures none { variants ≤ 1 → study.new ≡ study.old }
{
    for _child in 1..variants {
        add_child(study, ordered)?;
    }
    Ok(())
}

// How many events each variant has run, and the checksum of all journals.
fn sum_up<C: Calendar, M: Model>(
    study: &Study<C, M>,
    variants: u8,
) -> Result<([usize; 16], u64), StudyFault>
    ensures { IfOk result (λ r. AllSummed C.meaning M.meaning study.now (min variants 16) r.1) }
{
    let mut events = [0; 16];
    let mut checksum = 0;
    for v in 0..variants.min(VARIANTS) {
        let (count, sum) = with_journal(checksum, study, v)?;
        events[usize::from(v)] = count;
        checksum = sum;
    }
    Ok((events, checksum))
}

// What the study tells, once it has run so many steps.
fn figures<C: Calendar, M: Model>(
    study: &Study<C, M>,
    plan: &Plan,
    steps: u32,
) -> Result<Figures, StudyFault>
    ensures { IfOk result (λ f. Told C.meaning M.meaning study.now plan.now f) }
{
    let (executions, copies, entries) = study.totals()?;
    let (events, checksum) = if plan.summed {
        sum_up(study, plan.variants)?
    } else {
        ([0; 16], 0)
    };
    Ok(Figures {
        steps,
        executions,
        copies,
        entries,
        events,
        checksum,
    })
}

pub(crate) fn run<C: Calendar + Drop, M: Model + Drop>(
    heap: Global,
    calendar: C,
    model: M,
    starts: &[Start],
    plan: &Plan,
) -> Result<Figures, StudyFault>
    ensures { IfOk result (λ f. Paced C.meaning M.meaning (M.meaning model) starts.now plan.now f) }
{
    let mut study = Study::new(heap, calendar, model)?;
    let _ = study.load(starts, END)?;
    let before = step(&mut study, plan.steps_before);
    add_children(&mut study, plan.variants, plan.ordered)?;
    let after = step(&mut study, plan.steps_after);
    let told = figures(&study, plan, before.saturating_add(after))?;
    Ok(told)
}
