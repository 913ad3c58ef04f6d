// Histories with permits of other studies, and permits that are left.
#![tactic(auto)]

#[cfg(test)]
mod tests {
    use collection::Collection;
    use event::Start;
    use heap_calendar::store::HeapCalendar;
    use history::{Answer, Call, Ended, Unmade, carry_out, waive_all};
    use refusal::{Layer, Refusal};
    use std::alloc::{AllocError, Global};
    use std::process::Abort;
    use std::test::Fail;
    use study::permit::Permit;

    // A day from one milking on.
    fn load(heap: Global) -> Result<Call, AllocError> {
        let start = Start {
            time: 5,
            receiver: 1,
            kind: 0,
            data: 100,
        };
        let mut starts = Vec::new(heap);
        starts.push(start)?;
        Ok(Call::Load { starts, end: 9000 })
    }

    fn refused(number: u8) -> Answer {
        Answer::Refused(Refusal {
            number,
            layer: Layer::Study,
            position: 0,
        })
    }

    // Carries out these calls on two farms and one tanker.
    fn carried(
        rt: &impl Abort,
        heap: Global,
        permits: Vec<Permit>,
        calls: &[Call],
    ) -> (Ended<HeapCalendar, Collection>, Vec<Answer>) {
        let calendar = HeapCalendar::new(heap).expect(rt, "memory");
        let model = Collection::new(2, 1).expect(rt, "two farms and one tanker");
        match carry_out(heap, calendar, model, permits, calls) {
            Ok(carried) => carried,
            Err(Unmade { permits, .. }) => panic!(rt; "memory"),
        }
    }

    // Compares the answers. Tells how many permits are left, which are waived.
    fn left(
        rt: &impl Abort,
        heap: Global,
        permits: Vec<Permit>,
        calls: &[Call],
        expected: &[Answer],
    ) -> usize {
        let (Ended { mut study, permits }, told) = carried(rt, heap, permits, calls);
        assert_eq!(rt; told.as_slice(), expected);
        let left = permits.len();
        waive_all(&mut study, permits);
        left
    }

    #[test]
    fn permits_that_are_left_are_handed_back(rt: HostRuntime) -> Result<(), Fail> {
        let heap = rt.alloc();
        let calls = [
            load(heap)?,
            Call::Branch { variant: 0 },
            Call::Branch { variant: 0 },
            Call::Waive { variant: 1 },
            Call::Waive { variant: 1 },
        ];
        let expected = [
            Answer::Loaded(0),
            Answer::Branched(1),
            Answer::Branched(2),
            Answer::Waived(1),
            Answer::NoPermit(1),
        ];
        let left = left(&rt, heap, Vec::new(heap), &calls, &expected);
        assert_eq!(rt; left, 1);
        Ok(())
    }

    #[test]
    fn a_permit_of_another_study_is_refused_until_its_variant_is_made(
        rt: HostRuntime,
    ) -> Result<(), Fail> {
        let heap = rt.alloc();
        let branched = [load(heap)?, Call::Branch { variant: 0 }];
        let order = |variant| Call::Decide {
            variant,
            place: 0,
            order: 1,
        };
        let calls = [
            order(1),
            load(heap)?,
            order(1),
            order(2),
            Call::Branch { variant: 0 },
            order(1),
            order(1),
        ];
        let expected = [
            refused(2),
            Answer::Loaded(0),
            refused(10),
            Answer::NoPermit(2),
            Answer::Branched(1),
            // the permit that came from the other study
            Answer::Decided(1),
            // and its own
            refused(10),
        ];
        let (ended, _) = carried(&rt, heap, Vec::new(heap), &branched);
        let Ended {
            study: _study,
            permits,
        } = ended;
        assert_eq!(rt; left(&rt, heap, permits, &calls, &expected), 1);
        Ok(())
    }
}
