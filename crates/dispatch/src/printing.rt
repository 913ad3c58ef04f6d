// The sheet is printed: a block for each variant, what all of them have cost, and whether each agrees with the day run alone.
use crate::alone;
use crate::course::{Course, Variant};
use crate::refused::{alone_refused, refused};
use crate::studied::{self, PLANNED};
use dayfile::Plan;
use event::Message;
use report::{Ended, Verdict, Who, summary};
use sheet::{Cost, Difference, JournalLine, PlaceLine, Standing, Title, Untried, rows};
use std::alloc::Global;

// How the day of a variant has ended.
fn read(heap: Global, plan: &Plan, course: &Course, variant: Variant) -> anyhow::Result<Ended> {
    studied::read(heap, course.model, &course.study, variant.number).map_err(|fault| refused(
        heap, plan, fault,
    ))
}

// How the places of a variant stand.
fn standings(
    heap: Global,
    plan: &Plan,
    course: &Course,
    variant: Variant,
) -> anyhow::Result<Vec<Standing>> {
    studied::standings(
        heap,
        &course.model,
        &course.study,
        &course.partings,
        variant.number,
    )
    .map_err(|fault| refused(heap, plan, fault))
}

// The figures of a variant.
fn print_figures(rt: &HostRuntime, ended: &Ended, standings: &[Standing]) -> anyhow::Result<()> {
    let heap = rt.alloc();
    for row in rows(heap, &summary(heap, ended)?, standings)?.iter() {
        println!(rt; "  {row}")?;
    }
    Ok(())
}

// Where the journal of a variant parts from the day as planned, and how its places stand.
fn print_places(
    rt: &HostRuntime,
    course: &Course,
    journal: JournalLine,
    standings: &[Standing],
) -> anyhow::Result<()> {
    println!(rt; "  {journal}")?;
    for (place, standing) in (0..u8::MAX).zip(standings) {
        let line = PlaceLine {
            who: Who::at(&course.model, place),
            standing: *standing,
        };
        println!(rt; "  {line}")?;
    }
    Ok(())
}

// The block of a variant; the day as planned has no other to be told apart from.
fn print_variant(
    rt: &HostRuntime,
    plan: &Plan,
    course: &Course,
    variant: Variant,
    planned: &[Message],
) -> anyhow::Result<()> {
    let ended = read(rt.alloc(), plan, course, variant)?;
    let standings = standings(rt.alloc(), plan, course, variant)?;
    let title = Title {
        variant: variant.number,
        trial: variant.trial,
    };
    println!(rt; "\n{title}")?;
    print_figures(rt, &ended, &standings)?;
    if variant.number == PLANNED {
        println!(rt; "  every place         as planned")?;
        return Ok(());
    }
    let journal = JournalLine(Difference::of(&ended.journal, planned));
    print_places(rt, course, journal, &standings)
}

// What the study has worked, and what separate runs of its variants would have.
fn print_cost(rt: &HostRuntime, plan: &Plan, course: &Course) -> anyhow::Result<()> {
    let refuse = |fault| refused(rt.alloc(), plan, fault);
    let (executions, _copies, _entries) = course.study.totals().map_err(refuse)?;
    let mut events: usize = 0;
    for variant in course.variants.iter() {
        let run = course.study.events(variant.number).map_err(refuse)?;
        events = events.saturating_add(run);
    }
    let cost = Cost { executions, events };
    println!(rt; "\n{cost}")?;
    Ok(())
}

// Whether a variant agrees with the day run alone; prints the answer.
fn print_verdict(
    rt: &HostRuntime,
    plan: &Plan,
    course: &Course,
    variant: Variant,
) -> anyhow::Result<bool> {
    let heap = rt.alloc();
    let ended = read(heap, plan, course, variant)?;
    let alone = alone::run(heap, course.model, plan, variant.trial).map_err(|fault| alone_refused(
        heap, fault,
    ))?;
    let verdict = Verdict::of(&ended, &alone);
    let number = variant.number;
    println!(rt; "variant {number} {verdict}")?;
    Ok(verdict == Verdict::Agrees)
}

// Prints the sheet. Tells whether every variant agrees with the day run alone.
pub(crate) fn print_sheet(rt: &HostRuntime, plan: &Plan, course: &Course) -> anyhow::Result<bool> {
    let heap = rt.alloc();
    let planned = studied::read(heap, course.model, &course.study, PLANNED).map_err(|fault| refused(
        heap, plan, fault,
    ))?;
    for variant in course.variants.iter() {
        print_variant(rt, plan, course, *variant, &planned.journal)?;
    }
    print_cost(rt, plan, course)?;
    let mut agrees = true;
    for variant in course.variants.iter() {
        agrees = print_verdict(rt, plan, course, *variant)? && agrees;
    }
    Ok(agrees)
}

// Prints the choices whose moment never came, as the day as planned has only so many events.
pub(crate) fn print_untried(rt: &HostRuntime, plan: &Plan, events: usize) -> anyhow::Result<()> {
    for choice in plan.choices.iter() {
        if choice.events as usize > events {
            let untried = Untried {
                line: choice.line,
                events,
            };
            println!(rt; "{untried}")?;
        }
    }
    Ok(())
}
