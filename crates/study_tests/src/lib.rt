// Studies over both calendars and both models, against days and refusals worked out independently of the library.
#![tactic(auto)]

#[cfg(test)]
mod asking;
#[cfg(test)]
mod retired;
#[cfg(test)]
mod starts;
#[cfg(test)]
mod variants;

#[cfg(test)]
mod tests {
    use crate::asking::{Ask, Told, asks, refused};
    use crate::starts::{Row, message, milked, passed};
    use bucket_calendar::store::BucketCalendar;
    use calendar::Calendar;
    use collection::Collection;
    use day::LoneDay;
    use event::{Message, Start};
    use heap_calendar::store::HeapCalendar;
    use model::Model;
    use phold::Phold;
    use refusal::{Layer, Refusal};
    use std::alloc::Global;
    use std::process::Abort;
    use std::test::Fail;
    use study::Study;

    // Three farms, one tanker.
    const DAIRY: [Row; 15] = [
        (0, 2, 255, 0, 0, 1000),
        (1, 0, 2, 0, 1, 0),
        (2, 4, 0, 0, 3, 2),
        (5, 1, 255, 1, 0, 500),
        (5, 3, 255, 2, 0, 500),
        (6, 0, 1, 0, 1, 0),
        (6, 0, 3, 0, 1, 0),
        (902, 2, 4, 0, 4, 0),
        (1003, 4, 2, 1, 5, 1000),
        (1903, 0, 4, 1, 6, 1000),
        (2013, 4, 0, 1, 7, 0),
        (2014, 0, 4, 2, 2, 0),
        (2015, 4, 0, 2, 3, 1),
        (2615, 1, 4, 3, 4, 0),
        (2666, 4, 1, 1, 5, 500),
    ];

    // Two places, of the seed 3.
    const PASSING: [Row; 5] = [
        (0, 0, 255, 1, 0, 6),
        (7, 1, 255, 0, 0, 5),
        (48, 1, 0, 0, 0, 6),
        (64, 1, 1, 0, 0, 5),
        (91, 1, 1, 1, 0, 6),
    ];

    // Steps to the end, through these events; then nothing waits.
    fn runs<C: Calendar, M: Model>(
        rt: &impl Abort,
        study: &mut Study<C, M>,
        rows: &[Row],
        places: u32,
    ) {
        let mut executions: u32 = 0;
        for (i, row) in rows.iter().enumerate() {
            let message = message(row);
            executions = executions.saturating_add(1);
            let table = [
                (Ask::Next(0), Told::Next(Some(message))),
                (Ask::Steps(1), Told::Ran(1)),
                (Ask::Events(0), Told::Events(i + 1)),
                (Ask::Entry(0, i), Told::Entry(message)),
                (Ask::Totals, Told::Totals(executions, places, i + 1)),
            ];
            asks(rt, study, &table);
        }
        let table = [
            (Ask::Next(0), Told::Next(None)),
            (Ask::Steps(1), Told::Ran(0)),
            (Ask::Events(0), Told::Events(rows.len())),
        ];
        asks(rt, study, &table);
    }

    fn runs_the_dairy<C: Calendar + Drop>(
        rt: &impl Abort,
        heap: Global,
        calendar: C,
    ) -> Result<(), Fail> {
        let starts = [milked(2, 1000, 0), milked(1, 500, 5), milked(3, 500, 5)];
        let mut study = Study::new(heap, calendar, Collection::new(3, 1)?)?;
        assert_eq!(rt; study.load(&starts, 3000)?, 0);
        runs(rt, &mut study, &DAIRY, 5);
        let dairy = study.place(0, 0)?;
        assert_eq!(rt; dairy.words, [8, 0, 2013, 1000, 0, 0, 0, 0]);
        assert_eq!(rt; (dairy.order, dairy.sent), (0, 3));
        let table = [
            (Ask::Shares(0, 0, 4), Told::Shares(true)),
            (Ask::Group(0, 4), Told::Group(1)),
        ];
        asks(rt, &mut study, &table);
        Ok(())
    }

    fn passes<C: Calendar + Drop>(rt: &impl Abort, heap: Global, calendar: C) -> Result<(), Fail> {
        let starts = [passed(1, 5, 7), passed(0, 6, 0)];
        let mut study = Study::new(heap, calendar, Phold::new(2, 3, 0)?)?;
        assert_eq!(rt; study.load(&starts, 100)?, 0);
        runs(rt, &mut study, &PASSING, 2);
        let last = study.place(0, 1)?;
        assert_eq!(rt; last.words, [600_067_843, 4, 0, 0, 0, 0, 0, 0]);
        assert_eq!(rt; (last.order, last.sent), (0, 4));
        Ok(())
    }

    #[test]
    fn days_run_as_the_rules_say(rt: HostRuntime) -> Result<(), Fail> {
        let heap = rt.alloc();
        runs_the_dairy(&rt, heap, HeapCalendar::new(heap)?)?;
        runs_the_dairy(&rt, heap, BucketCalendar::new(heap)?)?;
        passes(&rt, heap, HeapCalendar::new(heap)?)?;
        passes(&rt, heap, BucketCalendar::new(heap)?)
    }

    // The newest entry, what waits next, and every place.
    fn agrees<C: Calendar, M: Model>(
        rt: &impl Abort,
        study: &mut Study<C, M>,
        day: &LoneDay<M>,
    ) -> Result<(), Fail> {
        let events = day.events();
        let table = [
            (Ask::Events(0), Told::Events(events)),
            (Ask::Next(0), Told::Next(day.waiting().first().copied())),
        ];
        asks(rt, study, &table);
        if events > 0 {
            let newest = day.entry(events - 1)?;
            asks(
                rt,
                study,
                &[(Ask::Entry(0, events - 1), Told::Entry(newest))],
            );
        }
        for p in 0..day.model().places() {
            asks(rt, study, &[(Ask::Place(0, p), Told::Place(day.place(p)?))]);
        }
        Ok(())
    }

    // A study that never branches, beside the day run alone.
    fn keeps_beside<C: Calendar + Drop, M: Model + Copy + Drop>(
        rt: &impl Abort,
        heap: Global,
        calendar: C,
        model: M,
        starts: &[Start],
    ) -> Result<(), Fail> {
        let mut day = LoneDay::load(heap, model, 512, starts, 3000)?;
        let mut study = Study::new(heap, calendar, model)?;
        let _ = study.load(starts, 3000)?;
        agrees(rt, &mut study, &day)?;
        for _ in 0..300 {
            let ran = day.event()?.is_some();
            asks(
                rt,
                &mut study,
                &[(Ask::Steps(1), Told::Ran(u32::from(ran)))],
            );
            agrees(rt, &mut study, &day)?;
        }
        assert!(rt; day.waiting().is_empty());
        Ok(())
    }

    #[test]
    fn one_variant_is_a_day_run_alone(rt: HostRuntime) -> Result<(), Fail> {
        let heap = rt.alloc();
        let phold = Phold::new(6, 271_828, 3)?;
        let passing = [
            passed(0, 1, 0),
            passed(3, 2, 0),
            passed(5, 3, 5),
            passed(5, 4, 40),
        ];
        keeps_beside(&rt, heap, HeapCalendar::new(heap)?, phold, &passing)?;
        keeps_beside(&rt, heap, BucketCalendar::new(heap)?, phold, &passing)?;
        let dairy = Collection::new(4, 2)?;
        let milk = [
            milked(4, 30_000, 0),
            milked(1, 700, 3),
            milked(1, 0, 900),
            milked(3, 500, 900),
        ];
        keeps_beside(&rt, heap, HeapCalendar::new(heap)?, dairy, &milk)?;
        keeps_beside(&rt, heap, BucketCalendar::new(heap)?, dairy, &milk)
    }

    // Why a load is refused.
    fn load_refused<C: Calendar, M: Model>(
        study: &mut Study<C, M>,
        starts: &[Start],
        end: u32,
    ) -> Option<(u8, Layer, u32)> {
        let refusal = Refusal::from(study.load(starts, end).err()?);
        Some((refusal.number, refusal.layer, refusal.position))
    }

    // A load is looked at for its end, and then at each message.
    fn loads_are_refused<C: Calendar, M: Model>(
        rt: &impl Abort,
        study: &mut Study<C, M>,
        good: Start,
        nowhere: Start,
    ) {
        let late = Start { time: 31, ..good };
        let told = load_refused(study, &[nowhere], 1_000_001);
        assert_eq!(rt; told, Some((4, Layer::Study, 0)));
        let told = load_refused(study, &[late, nowhere], 30);
        assert_eq!(rt; told, Some((6, Layer::Study, 0)));
        let told = load_refused(study, &[good, nowhere], 30);
        assert_eq!(rt; told, Some((5, Layer::Study, 1)));
        let told = load_refused(study, &[good; 513], 30);
        assert_eq!(rt; told, Some((7, Layer::Calendar, 512)));
    }

    // The calls that meet no load.
    fn unloaded(places: u8) -> [(Ask, Told); 8] {
        [
            (Ask::Steps(1), refused(2)),
            (Ask::Totals, refused(2)),
            (Ask::Next(0), refused(2)),
            (Ask::Events(0), refused(2)),
            (Ask::Entry(0, 0), refused(2)),
            (Ask::Place(16, places), refused(2)),
            (Ask::Shares(16, 16, places), refused(2)),
            (Ask::Group(16, places), refused(2)),
        ]
    }

    // The calls at a study whose calendar is full, and at which nothing has run.
    fn full(places: u8, first: Message) -> [(Ask, Told); 15] {
        [
            (Ask::Steps(1), refused(7)),
            (Ask::Events(1), refused(8)),
            (Ask::Next(255), refused(8)),
            (Ask::Entry(1, 0), refused(8)),
            (Ask::Shares(0, 1, 0), refused(8)),
            (Ask::Place(1, places), refused(8)),
            (Ask::Shares(1, 1, places), refused(8)),
            (Ask::Group(1, places), refused(8)),
            (Ask::Place(0, places), refused(11)),
            (Ask::Shares(0, 0, places), refused(11)),
            (Ask::Group(0, places), refused(11)),
            (Ask::Entry(0, 0), refused(16)),
            (Ask::Events(0), Told::Events(0)),
            (Ask::Next(0), Told::Next(Some(first))),
            (Ask::Totals, Told::Totals(0, u32::from(places), 0)),
        ]
    }

    // A study of so many places, before and after its load of as many messages as a calendar holds.
    fn refuses<C: Calendar + Drop, M: Model + Drop>(
        rt: &impl Abort,
        heap: Global,
        calendar: C,
        model: M,
    ) -> Result<(), Fail> {
        let places = model.places();
        let mut study = Study::new(heap, calendar, model)?;
        asks(rt, &mut study, &unloaded(places));
        let good = passed(0, 1, 30);
        let nowhere = passed(places, 1, 31);
        loads_are_refused(rt, &mut study, good, nowhere);
        asks(rt, &mut study, &[(Ask::Events(0), refused(2))]);
        assert_eq!(rt; study.load(&[good; 512], 30)?, 0);
        let told = load_refused(&mut study, &[nowhere], 1_000_001);
        assert_eq!(rt; told, Some((3, Layer::Study, 0)));
        asks(rt, &mut study, &full(places, good.message(0)));
        Ok(())
    }

    #[test]
    fn calls_are_refused_in_sequence(rt: HostRuntime) -> Result<(), Fail> {
        let heap = rt.alloc();
        refuses(&rt, heap, HeapCalendar::new(heap)?, Phold::new(6, 9, 0)?)?;
        refuses(&rt, heap, BucketCalendar::new(heap)?, Phold::new(32, 9, 7)?)?;
        refuses(&rt, heap, HeapCalendar::new(heap)?, Collection::new(1, 1)?)?;
        refuses(
            &rt,
            heap,
            BucketCalendar::new(heap)?,
            Collection::new(10, 6)?,
        )
    }

    // One message goes on and on at one place.
    #[test]
    fn entries_end_at_two_thousand_and_forty_eight(rt: HostRuntime) -> Result<(), Fail> {
        let heap = rt.alloc();
        let mut study = Study::new(heap, HeapCalendar::new(heap)?, Phold::new(1, 6, 0)?)?;
        let _ = study.load(&[passed(0, 0, 0)], 1_000_000)?;
        let next = message(&(102_296, 0, 0, 2047, 0, 0));
        let table = [
            (Ask::Steps(2048), Told::Ran(1)),
            (Ask::Steps(1), refused(14)),
            (Ask::Totals, Told::Totals(2048, 1, 2048)),
            (Ask::Next(0), Told::Next(Some(next))),
        ];
        asks(&rt, &mut study, &table);
        Ok(())
    }
}
