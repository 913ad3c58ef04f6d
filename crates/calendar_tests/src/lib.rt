// Both calendars through their trait: a table of calls worked out from the rules, and many drawn calls against a plain list.
#![tactic(auto)]

#[cfg(test)]
mod tests {
    use bucket_calendar::store::BucketCalendar;
    use calendar::fault::CalendarFault;
    use calendar::{Calendar, Held};
    use event::Message;
    use group::Group;
    use heap_calendar::store::HeapCalendar;
    use std::alloc::Global;
    use std::process::Abort;
    use std::test::Fail;
    use streams::draw;

    // A message at this time for the variant v. Those of one time have one key, and their data tell them apart.
    fn held(time: u32, data: u32, v: u8) -> Held {
        Held {
            message: Message {
                time,
                receiver: 1,
                sender: 2,
                number: 3,
                kind: 4,
                data,
            },
            group: Group::single(v),
        }
    }

    fn puts<C: Calendar>(rt: &impl Abort, calendar: &mut C, all: &[Held]) {
        calendar.empty();
        for h in all {
            assert_eq!(rt; calendar.put(*h), Ok(()));
        }
    }

    // What it gives until it holds none.
    fn gives<C: Calendar>(rt: &impl Abort, calendar: &mut C, all: &[Held]) {
        for h in all {
            assert_eq!(rt; calendar.take(), Some(*h));
        }
        assert_eq!(rt; calendar.take(), None);
        assert_eq!(rt; calendar.count(), 0);
    }

    // What leads, in order, as far as there is room.
    fn leads<C: Calendar>(
        rt: &impl Abort,
        heap: Global,
        calendar: &C,
        room: usize,
        all: &[Held],
    ) -> Result<(), Fail> {
        let mut out = Vec::with_capacity(heap, room)?;
        calendar.heads(&mut out);
        assert_eq!(rt; out.as_slice(), all);
        calendar.heads(&mut out);
        assert_eq!(rt; out.as_slice(), all);
        Ok(())
    }

    // Ties come in the sequence of their puts, and times a round of all buckets apart in that of their times.
    fn order<C: Calendar>(rt: &impl Abort, calendar: &mut C) {
        puts(
            rt,
            calendar,
            &[
                held(4101, 0, 0),
                held(5, 1, 1),
                held(5, 2, 0),
                held(64, 3, 0),
                held(5, 4, 2),
            ],
        );
        assert_eq!(rt; calendar.look(0), Some(held(5, 1, 1)));
        assert_eq!(rt; calendar.look(1), Some(held(5, 2, 0)));
        assert_eq!(rt; calendar.look(2), Some(held(5, 4, 2)));
        assert_eq!(rt; calendar.look(3), None);
        assert_eq!(rt; calendar.peek(0, 0), Some(held(5, 2, 0)));
        assert_eq!(rt; calendar.peek(0, 2), Some(held(4101, 0, 0)));
        assert_eq!(rt; calendar.peek(0, 3), None);
        assert_eq!(rt; calendar.peek(16, 0), None);
        let all = [
            held(5, 1, 1),
            held(5, 2, 0),
            held(5, 4, 2),
            held(64, 3, 0),
            held(4101, 0, 0),
        ];
        gives(rt, calendar, &all);
    }

    // Six of one key lead, then those that are left of them as they are taken, and then the next key.
    fn heads<C: Calendar>(rt: &impl Abort, heap: Global, calendar: &mut C) -> Result<(), Fail> {
        let alike = [
            held(5, 0, 0),
            held(5, 1, 1),
            held(5, 2, 0),
            held(5, 3, 2),
            held(5, 4, 3),
            held(5, 5, 1),
        ];
        calendar.empty();
        leads(rt, heap, calendar, 16, &[])?;
        puts(rt, calendar, &alike);
        assert_eq!(rt; calendar.put(held(4101, 6, 0)), Ok(()));
        for room in 0..7 {
            leads(rt, heap, calendar, room, &alike[..room.min(6)])?;
        }
        for taken in 0..6 {
            leads(rt, heap, calendar, 16, &alike[taken..])?;
            assert_eq!(rt; calendar.take(), Some(alike[taken]));
        }
        leads(rt, heap, calendar, 16, &[held(4101, 6, 0)])?;
        leads(rt, heap, calendar, 0, &[])?;
        gives(rt, calendar, &[held(4101, 6, 0)]);
        leads(rt, heap, calendar, 16, &[])
    }

    // A variant joins and another leaves; 15 is a variant, 16 is none.
    fn groups<C: Calendar>(rt: &impl Abort, calendar: &mut C) {
        let all = [held(7, 0, 0), held(8, 1, 15), held(9, 2, 1)];
        puts(rt, calendar, &all);
        calendar.spread(0, 16);
        calendar.spread(16, 3);
        calendar.erase(16);
        assert_eq!(rt; calendar.peek(3, 0), None);
        assert_eq!(rt; calendar.count(), 3);
        calendar.spread(15, 3);
        calendar.erase(15);
        assert_eq!(rt; calendar.peek(3, 0), Some(held(8, 1, 3)));
        calendar.erase(0);
        calendar.erase(1);
        assert_eq!(rt; calendar.count(), 1);
        calendar.erase(3);
        gives(rt, calendar, &[]);
    }

    // It is full at 512, takes and puts again, and is emptied.
    fn fullness<C: Calendar>(rt: &impl Abort, calendar: &mut C) {
        calendar.empty();
        for _ in 0..512 {
            assert_eq!(rt; calendar.put(held(9, 0, 0)), Ok(()));
        }
        assert_eq!(rt; calendar.put(held(9, 0, 0)), Err(CalendarFault::Full));
        assert_eq!(rt; calendar.count(), calendar.capacity());
        assert!(rt; calendar.take().is_some());
        assert_eq!(rt; calendar.put(held(1, 1, 0)), Ok(()));
        assert_eq!(rt; calendar.take(), Some(held(1, 1, 0)));
        calendar.empty();
        gives(rt, calendar, &[]);
    }

    fn table<C: Calendar>(rt: &impl Abort, heap: Global, calendar: &mut C) -> Result<(), Fail> {
        order(rt, calendar);
        heads(rt, heap, calendar)?;
        groups(rt, calendar);
        fullness(rt, calendar);
        Ok(())
    }

    #[test]
    fn both_answer_as_the_rules_say(rt: HostRuntime) -> Result<(), Fail> {
        table(&rt, rt.alloc(), &mut HeapCalendar::new(rt.alloc())?)?;
        table(&rt, rt.alloc(), &mut BucketCalendar::new(rt.alloc())?)?;
        Ok(())
    }

    // A calendar as a list in order, by loops over all of it.
    #[derive(Drop)]
    struct Plain {
        all: Vec<Held>,
    }

    impl Plain {
        fn put(&mut self, h: Held) -> Result<bool, Fail> {
            if self.all.len() >= 512 {
                return Ok(false);
            }
            let behind = |x: &Held| x.message.time <= h.message.time;
            let at = self.all.iter().filter(|x| behind(x)).count();
            if at <= self.all.len() {
                self.all.insert(at, h).map_err(|_| Fail::new("no memory"))?;
            }
            Ok(true)
        }

        fn look(&self, i: usize) -> Option<Held> {
            let first = self.all.first()?;
            self.all
                .iter()
                .copied()
                .filter(|x| x.message.time == first.message.time)
                .nth(i)
        }

        fn take(&mut self) -> Option<Held> {
            if self.all.is_empty() {
                return None;
            }
            Some(self.all.remove(0))
        }

        fn peek(&self, v: u8, i: usize) -> Option<Held> {
            self.all.iter().copied().filter(|x| x.group.has(v)).nth(i)
        }

        fn spread(&mut self, v: u8, c: u8) {
            for x in self.all.iter_mut() {
                if x.group.has(v) {
                    x.group = x.group.with(c);
                }
            }
        }

        fn erase(&mut self, v: u8) {
            if v < 16 {
                for x in self.all.iter_mut() {
                    x.group = x.group.without(v);
                }
                self.all.retain(|x| !x.group.is_empty());
            }
        }
    }

    // One drawn call on the calendar and on the list, which answer alike.
    fn call<C: Calendar>(
        rt: &impl Abort,
        calendar: &mut C,
        plain: &mut Plain,
        out: &mut Vec<Held>,
        x: u32,
    ) -> Result<(), Fail> {
        let v = (x / 16 % 18) as u8;
        let c = (x / 512 % 18) as u8;
        let i = (x / 64 % 4) as usize;
        match x % 16 {
            0..8 => {
                let h = held(x / 8 % 700 * 8, x, v);
                assert_eq!(rt; calendar.put(h).is_ok(), plain.put(h)?);
            }
            8..11 => assert_eq!(rt; calendar.take(), plain.take()),
            11 => assert_eq!(rt; calendar.look(i), plain.look(i)),
            12 => assert_eq!(rt; calendar.peek(v, i), plain.peek(v, i)),
            13 => {
                calendar.spread(v, c);
                plain.spread(v, c);
            }
            14 if x % 7 == 0 => {
                calendar.erase(v);
                plain.erase(v);
            }
            15 => {
                calendar.heads(out);
                for i in 0..out.capacity() {
                    assert_eq!(rt; out.get(i).copied(), plain.look(i));
                }
            }
            _ => {}
        }
        assert_eq!(rt; calendar.count(), plain.all.len());
        Ok(())
    }

    fn many<C: Calendar>(rt: &impl Abort, heap: Global, calendar: &mut C) -> Result<(), Fail> {
        let mut plain = Plain {
            all: Vec::new(heap),
        };
        let mut out = Vec::with_capacity(heap, 4)?;
        let mut x = 1;
        for _ in 0..10_000 {
            x = draw(x);
            call(rt, calendar, &mut plain, &mut out, x)?;
        }
        gives(rt, calendar, plain.all.as_slice());
        Ok(())
    }

    #[test]
    fn both_answer_as_a_plain_list(rt: HostRuntime) -> Result<(), Fail> {
        many(&rt, rt.alloc(), &mut HeapCalendar::new(rt.alloc())?)?;
        many(&rt, rt.alloc(), &mut BucketCalendar::new(rt.alloc())?)?;
        Ok(())
    }
}
