// A collection day on a study: how it is loaded and branched, and what is read of a variant.
ghost use Rattle.std.specs.Prelude.{◌≡◌, ◌+◌, IfOk, MatchOption, length, map, vec_items};
ghost use Rattle.collection.specs.Choice.{order_of};
ghost use Rattle.collection.specs.Rules.{meaning_of};
ghost use Rattle.heap_calendar.specs.Laws.{contents_of};
ghost use Rattle.study.specs.Plain.{NeverBranched};
ghost use Rattle.dispatch.specs.Readings.{HasRun, IsOwn, IsTakenOver, NothingNext, ReadsEntries, Reads, ReadsPlaces, ReadsStandings, RunsNext, StandsBy};
ghost use Rattle.dispatch.specs.Trials.{BranchedFor};

use collection::{Collection, DAIRY, Preference};
use day::{Place, Ran};
use dayfile::Plan;
use event::Message;
use heap_calendar::store::{CAPACITY, HeapCalendar};
use model::Model;
use report::Ended;
use sheet::{Parting, Standing, cause_of};
use std::alloc::{AllocError, Global};
use study::Study;
use study::fault::StudyFault;
use study::permit::Denied;

pub(crate) type DayStudy = Study<HeapCalendar, Collection>;

// The variant that a load begins: the day as planned.
pub(crate) const PLANNED: u8 = 0;

// The study of a plan's day.
pub(crate) fn load(heap: Global, model: Collection, plan: &Plan) -> Result<DayStudy, StudyFault>
    ensures { IfOk result (NeverBranched contents_of (λ m. meaning_of m.farms m.tankers) (map (λ m. m.start) (vec_items plan.now.milkings)) plan.now.end) }
{
    // one more than the calendar holds is refused, whatever comes behind it
    let starts = plan.first_starts(heap, CAPACITY + 1)?;
    let mut study = Study::new(heap, HeapCalendar::new(heap)?, model)?;
    study.load(starts.as_slice(), plan.end)?;
    Ok(study)
}

// Branches the day as planned, and gives the child an order at the dairy. Tells its number.
pub(crate) fn branch(study: &mut DayStudy, preference: Preference) -> Result<u8, StudyFault>
    ensures { IfOk result (BranchedFor study.old study.new (order_of preference)) }
{
    let permit = study.branch(PLANNED)?;
    let variant = permit.variant();
    match study.decide(permit, DAIRY, u32::from(preference)) {
        Ok(()) => Ok(variant),
        Err(Denied { permit, fault }) => {
            study.waive(permit)?;
            Err(fault)
        }
    }
}

// What v runs next, and what the receiver is to send then.
pub(crate) fn next_event(
    study: &DayStudy,
    model: &Collection,
    v: u8,
) -> Result<Option<Ran>, StudyFault>
    ensures { IfOk result (λ next. MatchOption next (NothingNext study.now v) (RunsNext study.now model.now v)) }
{
    let Some(message) = study.next(v)? else {
        return Ok(None);
    };
    let mut place = study.place(v, message.receiver)?;
    let sends = model.react(
        message.receiver,
        place.order,
        &mut place.words,
        (&message).into(),
    );
    Ok(Some(Ran { message, sends }))
}

// The smallest variant with which v shares the place p, if that is smaller than v.
pub(crate) fn giver(study: &DayStudy, v: u8, p: u8) -> Result<Option<u8>, StudyFault>
    ensures { IfOk result (λ giver. MatchOption giver (IsOwn study.now v p) (IsTakenOver study.now v p)) }
{
    for w in 0..v {
        if study.shares(v, w, p)? {
            return Ok(Some(w));
        }
    }
    Ok(None)
}

// Whether the place p of v is its own, and why.
fn standing(study: &DayStudy, partings: &[Parting], v: u8, p: u8) -> Result<Standing, StudyFault>
    ensures { IfOk result (StandsBy study.now partings.now v p) }
{
    Ok(match giver(study, v, p)? {
        Some(from) => Standing::TakenOver { from },
        None => Standing::Own(cause_of(partings, v, p)),
    })
}

// How many places a day has.
fn count_places(model: &Collection) -> u8
    ensures { result ≡ 1 + model.now.farms + model.now.tankers }
{
    model.farms() + model.tankers() + 1
}

// How all places of v stand to those of smaller variants, by their numbers.
pub(crate) fn standings(
    heap: Global,
    model: &Collection,
    study: &DayStudy,
    partings: &[Parting],
    v: u8,
) -> Result<Vec<Standing>, StudyFault>
    ensures { IfOk result (λ all. ReadsStandings study.now partings.now v (1 + model.now.farms + model.now.tankers) all.items) }
{
    let mut all = Vec::new(heap);
    for p in 0..count_places(model) {
        all.push(standing(study, partings, v, p)?)
            .map_err(AllocError::from)?;
    }
    Ok(all)
}

// All places of v, by their numbers.
fn read_places(heap: Global, study: &DayStudy, v: u8, places: u8) -> Result<Vec<Place>, StudyFault>
    ensures { IfOk result (λ all. ReadsPlaces study.now v places all.items) }
{
    let mut all = Vec::new(heap);
    for p in 0..places {
        all.push(study.place(v, p)?).map_err(AllocError::from)?;
    }
    Ok(all)
}

// What v has run, oldest first.
fn read_journal(heap: Global, study: &DayStudy, v: u8) -> Result<Vec<Message>, StudyFault>
    ensures events { IfOk result (λ all. HasRun study.now v (length all.items)) }
    ensures entries { IfOk result (λ all. ReadsEntries study.now v (length all.items) all.items) }
{
    let events = study.events(v)?;
    let mut all = Vec::new(heap);
    for i in 0..events {
        all.push(study.entry(v, i)?).map_err(AllocError::from)?;
    }
    Ok(all)
}

// How the day of v has ended, once nothing waits.
pub(crate) fn read(
    heap: Global,
    model: Collection,
    study: &DayStudy,
    v: u8,
) -> Result<Ended, StudyFault>
    ensures model { IfOk result (λ d. d.model ≡ model) }
    ensures read { IfOk result (Reads study.now v) }
{
    Ok(Ended {
        model,
        places: read_places(heap, study, v, count_places(&model))?,
        journal: read_journal(heap, study, v)?,
    })
}
