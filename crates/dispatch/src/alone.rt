// A variant run alone, to be compared with the study.
ghost use Rattle.std.specs.Prelude.{◌≡◌, IfOk, OnOk};
ghost use Rattle.collection.specs.Rules.{meaning_of};
ghost use Rattle.day.specs.Held.{SameSetting, day_of};
ghost use Rattle.day.specs.Runs.{events};
ghost use Rattle.dispatch.specs.Trials.{RanAlone};

use collection::{Collection, DAIRY};
use day::{DayFault, LoneDay, Stop};
use dayfile::Plan;
use sheet::Trial;
use std::alloc::Global;

// The messages that a calendar holds.
const CAPACITY: u16 = 512;

// Runs so many events, or as many as there are.
fn run_events(day: &mut LoneDay<Collection>, count: u32) -> Result<(), DayFault>
    ensures day { OnOk result (day_of (meaning_of day.old.model.farms day.old.model.tankers) day.new ≡ events (meaning_of day.old.model.farms day.old.model.tankers) day.old.waiting.end count (day_of (meaning_of day.old.model.farms day.old.model.tankers) day.old)) }
    ensures same { SameSetting day.old day.new }
{
    for i in 0..count {
        day.event()?;
    }
    Ok(())
}

// The day of the plan, alone, run to its end, with what is tried.
pub(crate) fn run(
    heap: Global,
    model: Collection,
    plan: &Plan,
    trial: Option<Trial>,
) -> Result<LoneDay<Collection>, DayFault>
    ensures { IfOk result (RanAlone model plan.now trial) }
{
    let starts = plan.starts(heap)?;
    let mut day = LoneDay::load(heap, model, CAPACITY, starts.as_slice(), plan.end)?;
    if let Some(trial) = trial {
        run_events(&mut day, trial.events)?;
        day.order(DAIRY, u32::from(trial.preference))?;
    }
    match day.run(|_model, _ran| Ok::<(), DayFault>(())) {
        Ok(()) => Ok(day),
        Err(Stop::Refused(fault)) => Err(fault),
        Err(Stop::Untold(fault)) => Err(fault),
    }
}
