// Days run alone, against days worked out independently of the library.
#![tactic(auto)]

#[cfg(test)]
mod tests {
    use collection::{Collection, Kind, Preference};
    use day::{DayFault, LoneDay, Stop};
    use event::{Message, Start};
    use refusal::{Layer, Refusal};
    use std::alloc::Global;
    use std::process::Abort;
    use std::test::Fail;

    // time, receiver, sender, number, kind, data
    type Row = (u32, u8, u8, u32, u8, u32);

    fn message(row: &Row) -> Message {
        let (time, receiver, sender, number, kind, data) = *row;
        Message {
            time,
            receiver,
            sender,
            number,
            kind,
            data,
        }
    }

    fn milked(farm: u8, litres: u32, time: u32) -> Start {
        Start {
            time,
            receiver: farm,
            kind: Kind::Milked.into(),
            data: litres,
        }
    }

    fn day(
        heap: Global,
        farms: u8,
        tankers: u8,
        capacity: u16,
        starts: &[Start],
        end: u32,
    ) -> Result<LoneDay<Collection>, Fail> {
        let model = Collection::new(farms, tankers)?;
        Ok(LoneDay::load(heap, model, capacity, starts, end)?)
    }

    // Runs one event after the other, and checks each.
    fn runs(rt: &impl Abort, day: &mut LoneDay<Collection>, rows: &[Row]) -> Result<(), Fail> {
        for row in rows {
            let Some(ran) = day.event()? else {
                return Err(Fail::new("nothing waits"));
            };
            assert_eq!(rt; ran.message, message(row));
        }
        Ok(())
    }

    const SHARED: [Row; 7] = [
        (0, 2, 255, 0, 0, 1000),
        (1, 0, 2, 0, 1, 0),
        (2, 4, 0, 0, 3, 2),
        (5, 1, 255, 1, 0, 500),
        (5, 3, 255, 2, 0, 500),
        (6, 0, 1, 0, 1, 0),
        (6, 0, 3, 0, 1, 0),
    ];

    #[test]
    fn the_nearest_farm_is_next(rt: HostRuntime) -> Result<(), Fail> {
        let starts = [milked(2, 1000, 0), milked(1, 500, 5), milked(3, 500, 5)];
        let mut day = day(rt.alloc(), 3, 1, 512, &starts, 3000)?;
        runs(&rt, &mut day, &SHARED)?;
        let rest = [
            (902, 2, 4, 0, 4, 0),
            (1003, 4, 2, 1, 5, 1000),
            (1903, 0, 4, 1, 6, 1000),
            (2013, 4, 0, 1, 7, 0),
            (2014, 0, 4, 2, 2, 0),
            (2015, 4, 0, 2, 3, 1),
            (2615, 1, 4, 3, 4, 0),
            (2666, 4, 1, 1, 5, 500),
        ];
        runs(&rt, &mut day, &rest)?;
        assert!(rt; day.event()?.is_none());
        assert_eq!(rt; day.events(), 15);
        let dairy = day.place(0)?;
        assert_eq!(rt; dairy.words, [8, 0, 2013, 1000, 0, 0, 0, 0]);
        assert_eq!(rt; dairy.sent, 3);
        Ok(())
    }

    #[test]
    fn a_run_tells_each_event(rt: HostRuntime) -> Result<(), Fail> {
        let starts = [milked(2, 1000, 0), milked(1, 500, 5), milked(3, 500, 5)];
        let mut day = day(rt.alloc(), 3, 1, 512, &starts, 3000)?;
        let mut told: u32 = 0;
        let mut last = 0;
        let ended = day.run(|_, ran| -> Result<(), DayFault> {
            told = told.saturating_add(1);
            last = ran.message.time;
            Ok(())
        });
        assert!(rt; ended.is_ok());
        assert_eq!(rt; (told, last), (15, 2666));
        assert!(rt; day.waiting().is_empty());
        Ok(())
    }

    #[test]
    fn a_run_stops_where_it_cannot_tell_or_is_refused(rt: HostRuntime) -> Result<(), Fail> {
        let starts = [milked(2, 1000, 0), milked(1, 500, 5), milked(3, 500, 5)];
        let mut untold = day(rt.alloc(), 3, 1, 512, &starts, 3000)?;
        let ended = untold.run(|_, ran| if ran.message.time < 6 {
            Ok(())
        } else {
            Err(ran.message.receiver)
        });
        assert!(rt; matches!(ended, Err(Stop::Untold(0))));
        assert_eq!(rt; untold.events(), 6);
        let mut full = day(rt.alloc(), 3, 1, 3, &starts, 3000)?;
        let ended = full.run(|_, _| -> Result<(), u32> { Ok(()) });
        assert!(rt; matches!(ended, Err(Stop::Refused(DayFault::Room))));
        assert_eq!(rt; full.events(), 0);
        Ok(())
    }

    #[test]
    fn an_order_sends_the_tanker_to_the_farthest(rt: HostRuntime) -> Result<(), Fail> {
        let starts = [milked(2, 1000, 0), milked(1, 500, 5), milked(3, 500, 5)];
        let mut day = day(rt.alloc(), 3, 1, 512, &starts, 3000)?;
        runs(&rt, &mut day, &SHARED)?;
        day.order(0, Preference::Farthest.into())?;
        let rest = [
            (902, 2, 4, 0, 4, 0),
            (1003, 4, 2, 1, 5, 1000),
            (1903, 0, 4, 1, 6, 1000),
            (2013, 4, 0, 1, 7, 0),
            (2014, 0, 4, 2, 2, 0),
            (2015, 4, 0, 2, 3, 3),
            (2915, 3, 4, 3, 4, 0),
            (2966, 4, 3, 1, 5, 500),
        ];
        runs(&rt, &mut day, &rest)?;
        assert!(rt; day.waiting().is_empty());
        let dairy = day.place(0)?;
        assert_eq!(rt; dairy.words, [2, 0, 2013, 1000, 0, 0, 0, 0]);
        assert_eq!(rt; dairy.order, 1);
        Ok(())
    }

    #[test]
    fn a_message_for_the_end_waits_and_a_later_one_is_lost(rt: HostRuntime) -> Result<(), Fail> {
        let in_time = [milked(1, 10, 2398)];
        let mut day = self::day(rt.alloc(), 1, 1, 512, &in_time, 3000)?;
        runs(
            &rt,
            &mut day,
            &[
                (2398, 1, 255, 0, 0, 10),
                (2399, 0, 1, 0, 1, 0),
                (2400, 2, 0, 0, 3, 1),
            ],
        )?;
        runs(&rt, &mut day, &[(3000, 1, 2, 0, 4, 0)])?;
        assert!(rt; day.waiting().is_empty());
        let too_late = [milked(1, 10, 2399)];
        let mut day = self::day(rt.alloc(), 1, 1, 512, &too_late, 3000)?;
        runs(
            &rt,
            &mut day,
            &[
                (2399, 1, 255, 0, 0, 10),
                (2400, 0, 1, 0, 1, 0),
                (2401, 2, 0, 0, 3, 1),
            ],
        )?;
        assert!(rt; day.event()?.is_none());
        assert_eq!(rt; day.place(2)?.sent, 1);
        Ok(())
    }

    fn told(number: u8, layer: Layer, position: u32) -> Refusal {
        Refusal {
            number,
            layer,
            position,
        }
    }

    // What a load tells, if it is refused.
    fn load(
        heap: Global,
        capacity: u16,
        starts: &[Start],
        end: u32,
    ) -> Result<Option<Refusal>, Fail> {
        let model = Collection::new(1, 1)?;
        let day = LoneDay::load(heap, model, capacity, starts, end);
        Ok(day.err().map(Refusal::from))
    }

    #[test]
    fn loads_are_refused_in_sequence(rt: HostRuntime) -> Result<(), Fail> {
        let heap = rt.alloc();
        let good = milked(1, 5, 0);
        let late = milked(1, 5, 31);
        let nowhere = milked(3, 5, 0);
        assert_eq!(rt; load(heap, 64, &[good], 1_000_000)?, None);
        assert_eq!(rt;
            load(heap, 64, &[nowhere], 1_000_001)?,
            Some(told(4, Layer::Study, 0))
        );
        assert_eq!(rt;
            load(heap, 64, &[late, nowhere], 30)?,
            Some(told(6, Layer::Study, 0))
        );
        assert_eq!(rt;
            load(heap, 64, &[good, nowhere], 30)?,
            Some(told(5, Layer::Study, 1))
        );
        assert_eq!(rt; load(heap, 2, &[good, good], 30)?, None);
        assert_eq!(rt;
            load(heap, 2, &[good, good, good], 30)?,
            Some(told(7, Layer::Calendar, 2))
        );
        assert_eq!(rt;
            load(heap, 2, &[good, good, late], 30)?,
            Some(told(6, Layer::Study, 2))
        );
        Ok(())
    }

    #[test]
    fn a_full_calendar_runs_no_event(rt: HostRuntime) -> Result<(), Fail> {
        let starts = [milked(1, 5, 0), milked(1, 5, 1)];
        let mut full = day(rt.alloc(), 1, 1, 2, &starts, 30)?;
        assert_eq!(rt;
            full.event().err().map(Refusal::from),
            Some(told(7, Layer::Study, 0))
        );
        assert_eq!(rt; full.events(), 0);
        assert_eq!(rt; full.waiting().len(), 2);
        let mut roomy = day(rt.alloc(), 1, 1, 3, &starts, 30)?;
        assert!(rt; roomy.event()?.is_some());
        Ok(())
    }

    #[test]
    fn what_is_not_there_is_refused(rt: HostRuntime) -> Result<(), Fail> {
        let mut day = day(rt.alloc(), 1, 1, 64, &[milked(1, 5, 0)], 30)?;
        assert!(rt; day.place(2).is_ok());
        assert!(rt; day.place(3).is_err());
        assert!(rt; day.order(3, 1).is_err());
        assert!(rt; day.entry(0).is_err());
        let _ = day.event()?;
        assert_eq!(rt; day.entry(0)?, message(&(0, 1, 255, 0, 0, 5)));
        assert!(rt; day.entry(1).is_err());
        Ok(())
    }
}
