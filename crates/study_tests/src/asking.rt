// Calls of a study as data, so that a test is a table of what is asked and what is told.
use calendar::Calendar;
use day::Place;
use event::Message;
use model::Model;
use refusal::{Layer, Refusal};
use std::process::Abort;
use study::Study;
use study::fault::StudyFault;
use study::permit::{Denied, Permit};

#[derive(Clone, Copy)]
pub(crate) enum Ask {
    // so many steps, up to a refused one; the last one is told
    Steps(u32),
    // a branch of v, whose permit is spent on an order for a place
    Branch { v: u8, place: u8, order: u32 },
    Retire(u8),
    Events(u8),
    Entry(u8, usize),
    Place(u8, u8),
    Next(u8),
    Shares(u8, u8, u8),
    Group(u8, u8),
    Totals,
}

#[derive(Clone, Copy, PartialEq, Eq, Debug)]
pub(crate) enum Told {
    Refused(Refusal),
    Ran(u32),
    Child(u8),
    Retired,
    Events(usize),
    Entry(Message),
    Place(Place),
    Next(Option<Message>),
    Shares(bool),
    Group(u32),
    Totals(u32, u32, usize),
}

pub(crate) fn branch(v: u8, place: u8, order: u32) -> Ask {
    Ask::Branch { v, place, order }
}

// Spends the permit on an order, or on none where that is denied.
fn spend<C: Calendar, M: Model>(
    study: &mut Study<C, M>,
    permit: Permit,
    place: u8,
    order: u32,
) -> Result<(), StudyFault> {
    match study.decide(permit, place, order) {
        Ok(()) => Ok(()),
        Err(Denied { permit, fault }) => {
            study.waive(permit)?;
            Err(fault)
        }
    }
}

// Branches v, and gives the child an order at a place. Tells the child.
fn branch_with<C: Calendar, M: Model>(
    study: &mut Study<C, M>,
    v: u8,
    place: u8,
    order: u32,
) -> Result<u8, StudyFault> {
    let permit = study.branch(v)?;
    let child = permit.variant();
    spend(study, permit, place, order)?;
    Ok(child)
}

fn step<C: Calendar, M: Model>(study: &mut Study<C, M>, count: u32) -> Result<u32, StudyFault> {
    let mut ran = 0;
    for _ in 0..count {
        ran = study.step()?;
    }
    Ok(ran)
}

fn read<C: Calendar, M: Model>(study: &Study<C, M>, ask: Ask) -> Result<Told, StudyFault> {
    Ok(match ask {
        Ask::Events(v) => Told::Events(study.events(v)?),
        Ask::Entry(v, i) => Told::Entry(study.entry(v, i)?),
        Ask::Place(v, p) => Told::Place(study.place(v, p)?),
        Ask::Next(v) => Told::Next(study.next(v)?),
        Ask::Shares(v, w, p) => Told::Shares(study.shares(v, w, p)?),
        Ask::Group(v, p) => Told::Group(study.group(v, p)?),
        _ => {
            let (executions, copies, entries) = study.totals()?;
            Told::Totals(executions, copies, entries)
        }
    })
}

fn tell<C: Calendar, M: Model>(study: &mut Study<C, M>, ask: Ask) -> Result<Told, StudyFault> {
    Ok(match ask {
        Ask::Steps(count) => Told::Ran(step(study, count)?),
        Ask::Branch { v, place, order } => Told::Child(branch_with(study, v, place, order)?),
        Ask::Retire(v) => {
            study.retire(v)?;
            Told::Retired
        }
        _ => read(study, ask)?,
    })
}

// A refusal of the study's own, with this number.
pub(crate) fn refused(number: u8) -> Told {
    Told::Refused(Refusal {
        number,
        layer: Layer::Study,
        position: 0,
    })
}

// Each is asked in turn, and told as the table says.
pub(crate) fn asks<C: Calendar, M: Model>(
    rt: &impl Abort,
    study: &mut Study<C, M>,
    table: &[(Ask, Told)],
) {
    for (i, (ask, wanted)) in table.iter().enumerate() {
        let told = match tell(study, *ask) {
            Ok(told) => told,
            Err(fault) => Told::Refused(fault.into()),
        };
        assert_eq!(rt; told, *wanted, "at {i}");
    }
}
