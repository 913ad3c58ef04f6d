// dispatch FILE: reads a day file, runs the day on a study in every variant that the file asks for, prints what happened and a sheet that compares the variants, and compares each variant with the day run alone.
#![tactic(auto)]

mod alone;
mod course;
mod printing;
mod refused;
mod studied;

use crate::course::{Course, EVENTS, Step, line};
use crate::refused::{choice_refused, refused, unmade};
use anyhow::anyhow;
use collection::Collection;
use dayfile::Plan;
use report::Heading;
use std::process::ExitCode;
use std::{env, fs};

// Branches a variant for each choice of this moment, and prints what it tries.
fn attempt(
    rt: &HostRuntime,
    plan: &Plan,
    course: &mut Course,
    events: usize,
) -> anyhow::Result<()> {
    for choice in plan.choices.iter() {
        if choice.events as usize == events {
            let attempt = course
                .attempt(choice)
                .map_err(|fault| choice_refused(rt.alloc(), choice, fault))?;
            println!(rt; "{attempt}")?;
        }
    }
    Ok(())
}

// Runs the day to its last event in every variant: a line for each event of the day as planned. Tells how many these are.
fn run_day(rt: &HostRuntime, plan: &Plan, course: &mut Course) -> anyhow::Result<usize> {
    let heap = rt.alloc();
    let mut events = 0;
    attempt(rt, plan, course, 0)?;
    for _i in 0..=EVENTS {
        match course
            .step(heap)
            .map_err(|fault| refused(heap, plan, fault))?
        {
            Step::Over => break,
            Step::Planned(event) => {
                let line = line(&course.model, &event.ran);
                println!(rt; "{line}")?;
                events = event.number;
                attempt(rt, plan, course, events)?;
            }
            Step::Tried => {}
        }
    }
    Ok(events)
}

// Prints the day of a plan. Tells whether each variant agrees with the day run alone.
fn print_day(rt: &HostRuntime, plan: &Plan) -> anyhow::Result<bool> {
    let heap = rt.alloc();
    let model = Collection::new(plan.farms, plan.tankers).map_err(|fault| unmade(heap, fault))?;
    let mut course = Course::new(heap, model, plan).map_err(|fault| refused(heap, plan, fault))?;
    let heading = Heading {
        farms: plan.farms,
        tankers: plan.tankers,
        end: plan.end,
    };
    println!(rt; "{heading}")?;
    let events = run_day(rt, plan, &mut course)?;
    let agrees = printing::print_sheet(rt, plan, &course)?;
    printing::print_untried(rt, plan, events)?;
    Ok(agrees)
}

// Tells the status: a file that cannot be read ends with its own message.
fn run(rt: &HostRuntime) -> anyhow::Result<ExitCode> {
    let mut args = env::args(rt)?;
    let path = args.nth(1).ok_or_else(|| anyhow!("usage: dispatch FILE"))?;
    let text = match fs::read(rt, path.as_str()) {
        Ok(text) => text,
        Err(e) => {
            eprintln!(rt; "dispatch: {path}: {e}")?;
            return Ok(ExitCode::FAILURE);
        }
    };
    let plan = dayfile::read(rt.alloc(), text.as_slice())?;
    if print_day(rt, &plan)? {
        return Ok(ExitCode::SUCCESS);
    }
    Ok(ExitCode::FAILURE)
}

fn main(rt: HostRuntime) -> ExitCode {
    match run(&rt) {
        Ok(status) => status,
        Err(error) => {
            let _ = eprintln!(rt; "dispatch: {error}");
            ExitCode::FAILURE
        }
    }
}
