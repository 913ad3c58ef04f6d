// replay FILE..: replays the scripts that are named, or standard input where none is, and prints every answer at once.
#![tactic(auto)]

mod dialogue;

use crate::dialogue::{Dialogue, Parts};
use anyhow::anyhow;
use history::{Ended, Unmade, history, waive_all};
use std::io::{BufRead, BufReader};
use std::process::ExitCode;
use std::{env, fs};

// Carries out what the script asks of one study. Permits that are left are waived at it.
fn carry_out<R: BufRead + Drop>(
    rt: &HostRuntime,
    parts: Parts,
    dialogue: &mut Dialogue<'_, R>,
) -> anyhow::Result<()> {
    let Parts { calendar, model } = parts;
    let none = Vec::new(rt.alloc());
    match history(rt.alloc(), calendar, model, none, dialogue) {
        Ok(Ended { mut study, permits }) => waive_all(&mut study, permits),
        Err(Unmade { permits, fault }) => {
            permits.destroy_empty();
            return Err(fault.into());
        }
    }
    match dialogue.error.take() {
        Some(error) => Err(error),
        None => Ok(()),
    }
}

// Replays a script to its end, or to the first line that is at fault.
fn replay<R: BufRead + Drop>(rt: &HostRuntime, script: R) -> anyhow::Result<()> {
    let mut dialogue = Dialogue::new(rt, script);
    dialogue.begin()?;
    for _ in 0..u64::MAX {
        let Some(parts) = dialogue.parts.take() else {
            break;
        };
        carry_out(rt, parts, &mut dialogue)?;
    }
    Ok(())
}

fn run(rt: &HostRuntime) -> anyhow::Result<()> {
    let mut paths = env::args(rt)?.skip(1).peekable();
    if paths.peek().is_none() {
        return replay(rt, BufReader::new(rt.alloc(), rt.reader())?);
    }
    for path in paths {
        let file = fs::open(rt, path.as_str()).map_err(|error| anyhow!("{path}: {error}"))?;
        replay(rt, BufReader::new(rt.alloc(), file)?)?;
    }
    Ok(())
}

fn main(rt: HostRuntime) -> ExitCode {
    match run(&rt) {
        Ok(()) => ExitCode::SUCCESS,
        Err(error) => {
            let _ = eprintln!(rt; "{error}");
            ExitCode::FAILURE
        }
    }
}
