// How a refusal is told.
ghost use Rattle.std.specs.Prelude.{◌≡◌};
ghost use Rattle.dispatch.specs.Position.{position_of};

use anyhow::anyhow;
use day::DayFault;
use dayfile::{Choice, Plan};
use model::ModelFault;
use refusal::Refusal;
use std::alloc::Global;
use study::fault::StudyFault;

// Where in the starting list a fault lies, if it lies there.
fn position(fault: StudyFault) -> Option<u32>
    ensures { result ≡ position_of fault }
{
    match fault {
        StudyFault::Start { position, .. } => Some(position),
        _ => None,
    }
}

// Why a call is refused, with the line of the file where one is to blame.
fn told(heap: Global, line: Option<usize>, fault: StudyFault) -> anyhow::Error {
    let number = Refusal::from(fault).number;
    let told = match line {
        Some(line) => format!(in heap; "line {line}: refused {number}: {fault}"),
        None => format!(in heap; "refused {number}: {fault}"),
    };
    match told {
        Ok(text) => anyhow!(text),
        Err(_) => fault.into(),
    }
}

// Why the day is refused, with the line of the milking where one is to blame.
pub(crate) fn refused(heap: Global, plan: &Plan, fault: StudyFault) -> anyhow::Error {
    let milking = position(fault).and_then(|i| plan.milkings.get(i as usize));
    told(heap, milking.map(|milking| milking.line), fault)
}

// Why a choice is refused.
pub(crate) fn choice_refused(heap: Global, choice: &Choice, fault: StudyFault) -> anyhow::Error {
    told(heap, Some(choice.line), fault)
}

// Why the day alone is refused.
pub(crate) fn alone_refused(heap: Global, fault: DayFault) -> anyhow::Error {
    let number = Refusal::from(fault).number;
    match format!(in heap; "run alone: refused {number}: {fault}") {
        Ok(text) => anyhow!(text),
        Err(_) => fault.into(),
    }
}

// Why there is no model.
pub(crate) fn unmade(heap: Global, fault: ModelFault) -> anyhow::Error {
    let number = Refusal::from(fault).number;
    match format!(in heap; "refused {number}: there are 1 to 10 farms and 1 to 6 tankers") {
        Ok(text) => anyhow!(text),
        Err(e) => e.into(),
    }
}
