// What is called from outside.
ghost use Rattle.std.specs.Prelude.{◌≡◌, true, false, is_some, IfOk, IfSome};
ghost use Rattle.pace.specs.Paces.{PacedOver, PholdPaced, CollectionPaced};

use crate::plan::{Figures, Plan};
use crate::running::run;
use crate::starts::{milked, passed};
use bucket_calendar::store::BucketCalendar;
use collection::Collection;
use event::Start;
use heap_calendar::store::HeapCalendar;
use model::Model;
use phold::Phold;
use std::alloc::Global;
use study::fault::StudyFault;

const SEED: u32 = 271_828;

fn run_over<M: Model + Drop>(
    heap: Global,
    model: M,
    starts: &[Start],
    plan: &Plan,
) -> Result<Figures, StudyFault>
    ensures { IfOk result (λ f. PacedOver plan.now.buckets M.meaning (M.meaning model) starts.now plan.now f) }
{
    if plan.buckets {
        run(heap, BucketCalendar::new(heap)?, model, starts, plan)
    } else {
        run(heap, HeapCalendar::new(heap)?, model, starts, plan)
    }
}

fn phold(heap: Global, plan: &Plan) -> Option<Figures>
    ensures { IfSome result (λ f. PholdPaced plan.now f) }
{
    let model = Phold::new(plan.farms_or_places, SEED, 0).ok()?;
    let starts = passed(heap, model.places(), plan.starts).ok()?;
    run_over(heap, model, &starts, plan).ok()
}

fn collection(heap: Global, plan: &Plan) -> Option<Figures>
    ensures { IfSome result (λ f. CollectionPaced plan.now f) }
{
    let model = Collection::new(plan.farms_or_places, plan.tankers).ok()?;
    let starts = milked(heap, model.farms(), plan.starts).ok()?;
    run_over(heap, model, &starts, plan).ok()
}

// Tells the figures, if there are some.
fn tell(figures: Option<Figures>, told: &mut Figures) -> bool
    ensures told { IfSome figures (λ f. told.new ≡ f) }
    ensures result { result ≡ is_some figures }
    ensures none { result ≡ false → told.new ≡ told.old }
{
    match figures {
        Some(figures) => {
            *told = figures;
            true
        }
        None => false,
    }
}

// A PHOLD day. Tells nothing where a call is refused.
#[unsafe(no_mangle)]
pub extern "C" fn pace_phold(alloc: Global, plan: &Plan, told: &mut Figures) -> bool
    ensures paced { result ≡ true → PholdPaced plan.now told.new }
    ensures none { result ≡ false → told.new ≡ told.old }
{
    tell(phold(alloc, plan), told)
}

// A collection day.
#[unsafe(no_mangle)]
pub extern "C" fn pace_collection(alloc: Global, plan: &Plan, told: &mut Figures) -> bool
    ensures paced { result ≡ true → CollectionPaced plan.now told.new }
    ensures none { result ≡ false → told.new ≡ told.old }
{
    tell(collection(alloc, plan), told)
}
