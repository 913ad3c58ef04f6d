// Days that are branched, over both calendars.
use crate::asking::{Ask, Told, asks, branch, refused};
use crate::starts::{message, milked};
use bucket_calendar::store::BucketCalendar;
use calendar::Calendar;
use collection::Collection;
use day::Place;
use heap_calendar::store::HeapCalendar;
use refusal::Refusal;
use std::alloc::Global;
use std::process::Abort;
use std::test::Fail;
use study::Study;
use study::fault::StudyFault;
use study::permit::Denied;

// Three farms and one tanker, loaded.
pub(crate) fn loaded<C: Calendar + Drop>(
    heap: Global,
    calendar: C,
) -> Result<Study<C, Collection>, Fail> {
    let starts = [milked(2, 1000, 0), milked(1, 500, 5), milked(3, 500, 5)];
    let mut study = Study::new(heap, calendar, Collection::new(3, 1)?)?;
    study.load(&starts, 3000)?;
    Ok(study)
}

// What the two share after ten steps more.
const PARTED: [(Ask, Told); 8] = [
    (Ask::Totals, Told::Totals(21, 9, 20)),
    (Ask::Shares(0, 1, 0), Told::Shares(false)),
    (Ask::Shares(0, 1, 1), Told::Shares(false)),
    (Ask::Shares(0, 1, 2), Told::Shares(true)),
    (Ask::Shares(0, 1, 3), Told::Shares(false)),
    (Ask::Shares(0, 1, 4), Told::Shares(false)),
    (Ask::Group(0, 2), Told::Group(2)),
    (Ask::Group(1, 3), Told::Group(1)),
];

// After seven steps a variant is to send its tanker to the farthest farm: the days part at the next trip.
fn parts<C: Calendar + Drop>(rt: &impl Abort, heap: Global, calendar: C) -> Result<(), Fail> {
    let mut study = loaded(heap, calendar)?;
    asks(
        rt,
        &mut study,
        &[
            (Ask::Steps(7), Told::Ran(1)),
            (branch(0, 0, 1), Told::Child(1)),
        ],
    );
    for executions in [1, 1, 2, 2, 2, 2, 1, 1, 1, 1] {
        asks(rt, &mut study, &[(Ask::Steps(1), Told::Ran(executions))]);
    }
    asks(rt, &mut study, &PARTED);
    let dairy = Place {
        words: [2, 0, 2013, 1000, 0, 0, 0, 0],
        order: 1,
        sent: 3,
    };
    let same = Told::Entry(message(&(2014, 0, 4, 2, 2, 0)));
    let table = [
        (Ask::Entry(0, 11), same),
        (Ask::Entry(1, 11), same),
        (
            Ask::Entry(0, 12),
            Told::Entry(message(&(2015, 4, 0, 2, 3, 1))),
        ),
        (
            Ask::Entry(1, 12),
            Told::Entry(message(&(2015, 4, 0, 2, 3, 3))),
        ),
        (Ask::Place(1, 0), Told::Place(dairy)),
    ];
    asks(rt, &mut study, &table);
    Ok(())
}

#[test]
fn days_part_where_an_order_reaches(rt: HostRuntime) -> Result<(), Fail> {
    let heap = rt.alloc();
    parts(&rt, heap, HeapCalendar::new(heap)?)?;
    parts(&rt, heap, BucketCalendar::new(heap)?)
}

// A denied order leaves the permit to be spent.
fn keeps_the_permit<C: Calendar>(
    rt: &impl Abort,
    study: &mut Study<C, Collection>,
) -> Result<(), Fail> {
    let permit = study.branch(0)?;
    asks(
        rt,
        study,
        &[(branch(1, 0, 1), refused(9)), (Ask::Retire(1), refused(9))],
    );
    match study.decide(permit, 5, 1) {
        Ok(()) => assert!(rt; false),
        Err(Denied { permit, fault }) => {
            assert_eq!(rt; Told::Refused(fault.into()), refused(11));
            assert_eq!(rt; permit.variant(), 1);
            study.waive(permit)?;
        }
    }
    Ok(())
}

// Each refusal of these calls.
fn refuses<C: Calendar + Drop>(rt: &impl Abort, heap: Global, calendar: C) -> Result<(), Fail> {
    let mut study = loaded(heap, calendar)?;
    let table = [
        (branch(1, 0, 1), refused(8)),
        (Ask::Retire(1), refused(8)),
        (Ask::Retire(0), refused(13)),
    ];
    asks(rt, &mut study, &table);
    keeps_the_permit(rt, &mut study)?;
    // an order with the value that stands there already parts them all the same
    let table = [
        (branch(1, 3, 0), Told::Child(2)),
        (Ask::Shares(1, 2, 3), Told::Shares(false)),
        (Ask::Shares(1, 2, 2), Told::Shares(true)),
    ];
    asks(rt, &mut study, &table);
    for child in 3..16 {
        asks(rt, &mut study, &[(branch(0, 0, 1), Told::Child(child))]);
    }
    asks(rt, &mut study, &[(branch(0, 0, 1), refused(12))]);
    Ok(())
}

#[test]
fn refusals_come_in_their_cases(rt: HostRuntime) -> Result<(), Fail> {
    let heap = rt.alloc();
    refuses(&rt, heap, HeapCalendar::new(heap)?)?;
    refuses(&rt, heap, BucketCalendar::new(heap)?)
}

// The number with which a permit of one study is refused by the other.
fn waived_elsewhere<C: Calendar, D: Calendar>(
    one: &mut Study<C, Collection>,
    other: &mut Study<D, Collection>,
) -> Result<Option<Refusal>, StudyFault> {
    let permit = one.branch(0)?;
    Ok(other.waive(permit).err().map(Refusal::from))
}

// A permit of another study is taken only where its number is that of an undecided variant.
#[test]
fn permits_go_by_their_number(rt: HostRuntime) -> Result<(), Fail> {
    let heap = rt.alloc();
    let mut one = loaded(heap, HeapCalendar::new(heap)?)?;
    let mut other = loaded(heap, BucketCalendar::new(heap)?)?;
    let told = waived_elsewhere(&mut one, &mut other)?;
    assert_eq!(&rt; told.map(Told::Refused), Some(refused(10)));
    Ok(())
}

#[test]
fn nothing_is_branched_or_retired_before_a_load(rt: HostRuntime) -> Result<(), Fail> {
    let heap = rt.alloc();
    let mut fresh = Study::new(heap, HeapCalendar::new(heap)?, Collection::new(1, 1)?)?;
    let table = [(branch(0, 0, 1), refused(2)), (Ask::Retire(0), refused(2))];
    asks(&rt, &mut fresh, &table);
    Ok(())
}
