// Tries a published draw, then runs a PHOLD day alone: its events, and how the places stand at the end.
#![tactic(auto)]

use anyhow::anyhow;
use day::{LoneDay, Stop};
use event::{Message, Start};
use phold::Phold;
use refusal::Refusal;
use std::alloc::Global;
use std::io;
use streams::draws;

const PLACES: u8 = 4;

const SEED: u32 = 1;

const REPLICATION: u8 = 0;

const END: u32 = 500;

// The messages that a calendar holds.
const CAPACITY: u16 = 512;

// Once so many events have run, an order is given to a place.
const EVENTS_BEFORE: usize = 20;

const ORDER: u32 = 3;

const ORDERED: u8 = 2;

const STARTS: [Start; 5] = [
    Start {
        time: 0,
        receiver: 0,
        kind: 0,
        data: 100,
    },
    Start {
        time: 0,
        receiver: 1,
        kind: 0,
        data: 101,
    },
    Start {
        time: 0,
        receiver: 2,
        kind: 0,
        data: 102,
    },
    Start {
        time: 10,
        receiver: 3,
        kind: 0,
        data: 103,
    },
    Start {
        time: 10,
        receiver: 3,
        kind: 7,
        data: 104,
    },
];

fn refused<F>(heap: Global, fault: F) -> anyhow::Error
where
    Refusal: From<F>,
{
    let number = Refusal::from(fault).number;
    match format!(in heap; "refused {number}") {
        Ok(text) => anyhow!(text),
        Err(_) => anyhow!("refused"),
    }
}

fn stopped(heap: Global, stop: Stop<io::Error>) -> anyhow::Error {
    match stop {
        Stop::Refused(fault) => refused(heap, fault),
        Stop::Untold(error) => error.into(),
    }
}

fn print_event(rt: &HostRuntime, m: &Message) -> io::Result<()> {
    println!(rt;
        "time {} receiver {} sender {} number {} data {}",
        m.time, m.receiver, m.sender, m.number, m.data
    )
}

// Runs at most so many events, a line for each.
fn run_events(
    rt: &HostRuntime,
    day: &mut LoneDay<Phold>,
    most: usize,
) -> Result<(), Stop<io::Error>> {
    for _ in 0..most {
        let Some(ran) = day.event()? else {
            return Ok(());
        };
        print_event(rt, &ran.message).map_err(Stop::Untold)?;
    }
    Ok(())
}

fn print_places(rt: &HostRuntime, day: &LoneDay<Phold>) -> anyhow::Result<()> {
    for p in 0..PLACES {
        if let Ok(place) = day.place(p) {
            let drawn = place.words[0];
            let passed = place.words[1];
            let sent = place.sent;
            println!(rt; "place {p}: word 0 {drawn} word 1 {passed} sent {sent}")?;
        }
    }
    Ok(())
}

fn load_day(heap: Global) -> anyhow::Result<LoneDay<Phold>> {
    let model = Phold::new(PLACES, SEED, REPLICATION).map_err(|fault| refused(heap, fault))?;
    LoneDay::load(heap, model, CAPACITY, &STARTS, END).map_err(|fault| refused(heap, fault))
}

// Runs the day to its last event, with an order on the way.
fn run_day(rt: &HostRuntime, day: &mut LoneDay<Phold>) -> Result<(), Stop<io::Error>> {
    run_events(rt, day, EVENTS_BEFORE)?;
    day.order(ORDERED, ORDER)?;
    println!(rt; "order {ORDER} at place {ORDERED}").map_err(Stop::Untold)?;
    day.run(|_, ran| print_event(rt, &ran.message))
}

fn run(rt: &HostRuntime) -> anyhow::Result<()> {
    let value = draws(10_000, 1);
    println!(rt; "draw 10000 from seed 1 is {value}")?;
    println!(rt;
        "PHOLD with {PLACES} places, seed {SEED}, replication {REPLICATION}, until {END}"
    )?;
    let mut day = load_day(rt.alloc())?;
    run_day(rt, &mut day).map_err(|stop| stopped(rt.alloc(), stop))?;
    print_places(rt, &day)
}

fn main(rt: HostRuntime) -> anyhow::Result<()> {
    run(&rt)
}
