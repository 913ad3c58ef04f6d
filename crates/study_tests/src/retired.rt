// Days whose variants are retired, over both calendars.
use crate::asking::{Ask, Told, asks, branch, refused};
use crate::starts::passed;
use crate::variants::loaded;
use bucket_calendar::store::BucketCalendar;
use calendar::Calendar;
use day::Place;
use event::Start;
use heap_calendar::store::HeapCalendar;
use phold::Phold;
use std::alloc::Global;
use std::array;
use std::process::Abort;
use std::test::Fail;
use study::Study;

// One place and one message, with sixteen variants that run alike and share nothing.
fn sixteen<C: Calendar + Drop>(
    rt: &impl Abort,
    heap: Global,
    calendar: C,
) -> Result<Study<C, Phold>, Fail> {
    let mut study = Study::new(heap, calendar, Phold::new(1, 6, 0)?)?;
    let _ = study.load(&[passed(0, 0, 0)], 1_000_000)?;
    asks(rt, &mut study, &[(Ask::Steps(15), Told::Ran(1))]);
    for child in 1..16 {
        asks(rt, &mut study, &[(branch(0, 0, 0), Told::Child(child))]);
    }
    Ok(study)
}

// The journal is filled. Retiring makes room for the entries of those that are left, and no seventeenth variant.
fn frees_entries<C: Calendar + Drop>(
    rt: &impl Abort,
    heap: Global,
    calendar: C,
) -> Result<(), Fail> {
    let mut study = sixteen(rt, heap, calendar)?;
    let table = [
        (Ask::Totals, Told::Totals(15, 16, 15)),
        (Ask::Steps(128), Told::Ran(16)),
        (Ask::Totals, Told::Totals(2063, 16, 2048)),
        (Ask::Steps(1), refused(14)),
        (Ask::Retire(5), Told::Retired),
        (Ask::Totals, Told::Totals(2063, 15, 1921)),
        (Ask::Steps(8), Told::Ran(15)),
        (Ask::Steps(1), refused(14)),
        (Ask::Retire(0), Told::Retired),
        (Ask::Retire(1), Told::Retired),
        (Ask::Retire(2), Told::Retired),
        (Ask::Steps(34), Told::Ran(12)),
        (Ask::Steps(1), refused(14)),
        (Ask::Totals, Told::Totals(2591, 12, 2044)),
        (branch(3, 0, 0), refused(12)),
    ];
    asks(rt, &mut study, &table);
    Ok(())
}

// Steps go on until one would need a 129th copy; two retirements free eighteen.
fn frees_copies<C: Calendar + Drop>(
    rt: &impl Abort,
    heap: Global,
    calendar: C,
) -> Result<(), Fail> {
    let mut study = Study::new(heap, calendar, Phold::new(32, 12, 0)?)?;
    let starts: [Start; 8] = array::from_fn(|i| passed(4 * i as u8, i as u32, i as u32));
    let _ = study.load(&starts, 100_000)?;
    asks(rt, &mut study, &[(Ask::Steps(2), Told::Ran(1))]);
    for child in 1..16 {
        let order = branch(0, 2 * child, u32::from(child));
        asks(rt, &mut study, &[(order, Told::Child(child))]);
    }
    let table = [
        (Ask::Totals, Told::Totals(2, 47, 2)),
        (Ask::Steps(200), refused(15)),
        (Ask::Totals, Told::Totals(157, 128, 112)),
        (Ask::Retire(1), Told::Retired),
        (Ask::Retire(2), Told::Retired),
        (Ask::Totals, Told::Totals(157, 110, 95)),
        (Ask::Steps(200), refused(15)),
        (Ask::Totals, Told::Totals(212, 128, 130)),
    ];
    asks(rt, &mut study, &table);
    Ok(())
}

#[test]
fn retiring_makes_room(rt: HostRuntime) -> Result<(), Fail> {
    let heap = rt.alloc();
    frees_entries(&rt, heap, HeapCalendar::new(heap)?)?;
    frees_entries(&rt, heap, BucketCalendar::new(heap)?)?;
    frees_copies(&rt, heap, HeapCalendar::new(heap)?)?;
    frees_copies(&rt, heap, BucketCalendar::new(heap)?)
}

// Variants 1 and 2 have parted from 0; 1 is retired, and 2 has a child after that.
fn grandchild() -> [(Ask, Told); 21] {
    [
        (branch(0, 0, 1), Told::Child(1)),
        (branch(0, 3, 5), Told::Child(2)),
        (Ask::Steps(6), Told::Ran(2)),
        (Ask::Steps(1), Told::Ran(3)),
        (Ask::Totals, Told::Totals(13, 9, 9)),
        (Ask::Retire(1), Told::Retired),
        (Ask::Retire(1), refused(8)),
        (Ask::Events(1), refused(8)),
        (Ask::Totals, Told::Totals(13, 7, 8)),
        (branch(2, 0, 2), Told::Child(3)),
        (Ask::Shares(0, 2, 0), Told::Shares(false)),
        (Ask::Shares(2, 3, 3), Told::Shares(true)),
        (Ask::Shares(2, 3, 0), Told::Shares(false)),
        (Ask::Group(0, 1), Told::Group(3)),
        (Ask::Steps(6), Told::Ran(3)),
        (Ask::Totals, Told::Totals(27, 10, 20)),
        (Ask::Retire(0), Told::Retired),
        (Ask::Retire(2), Told::Retired),
        (Ask::Retire(3), refused(13)),
        (Ask::Steps(100), Told::Ran(0)),
        (Ask::Totals, Told::Totals(29, 5, 15)),
    ]
}

fn goes_on<C: Calendar + Drop>(rt: &impl Abort, heap: Global, calendar: C) -> Result<(), Fail> {
    let mut study = loaded(heap, calendar)?;
    asks(rt, &mut study, &grandchild());
    assert_eq!(rt; study.events(3)?, 15);
    let farm = Place {
        words: [500, 1, 0, 0, 0, 0, 0, 0],
        order: 5,
        sent: 1,
    };
    assert_eq!(rt; study.place(3, 3)?, farm);
    Ok(())
}

// Each has one child and is retired, until sixteen were made. No more are, though one is left.
fn ends_at_sixteen<C: Calendar + Drop>(
    rt: &impl Abort,
    heap: Global,
    calendar: C,
) -> Result<(), Fail> {
    let mut study = Study::new(heap, calendar, Phold::new(2, 8, 4)?)?;
    let _ = study.load(&[passed(0, 0, 0), passed(1, 1, 1)], 5000)?;
    for v in 0..15 {
        let table = [
            (Ask::Steps(1), Told::Ran(1)),
            (branch(v, (v + 1) % 2, u32::from(v) + 1), Told::Child(v + 1)),
            (Ask::Retire(v), Told::Retired),
        ];
        asks(rt, &mut study, &table);
    }
    let table = [
        (branch(15, 0, 0), refused(12)),
        (branch(14, 0, 0), refused(8)),
        (Ask::Retire(15), refused(13)),
        (Ask::Steps(3), Told::Ran(1)),
        (Ask::Totals, Told::Totals(18, 2, 18)),
    ];
    asks(rt, &mut study, &table);
    let place = study.place(15, 0)?;
    assert_eq!(rt;
        (place.words[0], place.order, place.sent),
        (1_381_119_462, 14, 10)
    );
    Ok(())
}

#[test]
fn days_go_on_after_a_retirement(rt: HostRuntime) -> Result<(), Fail> {
    let heap = rt.alloc();
    goes_on(&rt, heap, HeapCalendar::new(heap)?)?;
    goes_on(&rt, heap, BucketCalendar::new(heap)?)?;
    ends_at_sixteen(&rt, heap, HeapCalendar::new(heap)?)?;
    ends_at_sixteen(&rt, heap, BucketCalendar::new(heap)?)
}
