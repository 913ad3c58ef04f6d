// Reads a day file, a text for people, into the plan of a collection day:
//
//     # Tuesday
//     farms 3
//     tankers 1
//     end 3000
//     milked 2 1000 at 0        # farm, litres, second of the day
//     after 7 events try farthest
//
// specs/Plans.antt has the whole format. Limits of the model and of the day are theirs to refuse.
#![tactic(auto)]

mod flaw;
mod line;
mod plan;
mod word;

pub use flaw::{Flaw, FlawKind};
pub use plan::{Choice, Milking, Plan, read};

#[cfg(test)]
mod tests {
    use super::*;
    use collection::Preference;
    use event::Start;
    use std::alloc::Global;
    use std::test::Fail;
    use text::WordFlaw;

    const TUESDAY: &str =
        "# Tuesday\nfarms 3\ntankers 1\nend 3000\nmilked 2 1000 at 0        # farm, litres, second of the day\nmilked 1 500 at 5\nmilked 3 500 at 5\n";

    fn milk(time: u32, farm: u8, litres: u32) -> Start {
        Start {
            time,
            receiver: farm,
            kind: 0,
            data: litres,
        }
    }

    #[test]
    fn a_day_is_read_in_the_sequence_of_its_file(rt: HostRuntime) -> Result<(), Fail> {
        let plan = read(rt.alloc(), TUESDAY.as_bytes())?;
        assert_eq!(rt; (plan.farms, plan.tankers, plan.end), (3, 1, 3000));
        assert_eq!(rt;
            plan.milkings.as_slice(),
            [
                Milking {
                    line: 5,
                    start: milk(0, 2, 1000)
                },
                Milking {
                    line: 6,
                    start: milk(5, 1, 500)
                },
                Milking {
                    line: 7,
                    start: milk(5, 3, 500)
                },
            ]
            .as_slice()
        );
        Ok(())
    }

    #[test]
    fn the_starts_of_a_plan_stand_in_its_sequence(rt: HostRuntime) -> Result<(), Fail> {
        let plan = read(rt.alloc(), TUESDAY.as_bytes())?;
        let starts = plan.starts(rt.alloc())?;
        assert_eq!(rt;
            starts.as_slice(),
            [milk(0, 2, 1000), milk(5, 1, 500), milk(5, 3, 500)].as_slice()
        );
        let first = plan.first_starts(rt.alloc(), 2)?;
        assert_eq!(rt;
            first.as_slice(),
            [milk(0, 2, 1000), milk(5, 1, 500)].as_slice()
        );
        let all = plan.first_starts(rt.alloc(), 4)?;
        assert_eq!(rt; all.as_slice(), starts.as_slice());
        Ok(())
    }

    #[test]
    fn blanks_and_comments_say_nothing(rt: HostRuntime) -> Result<(), Fail> {
        let text = "\tfarms 1 # one\r\n\r\n  # nothing\nend\t4294967295#\n tankers  255";
        let plan = read(rt.alloc(), text.as_bytes())?;
        assert_eq!(rt; (plan.farms, plan.tankers, plan.end), (1, 255, 4294967295));
        assert_eq!(rt; plan.milkings.len(), 0);
        Ok(())
    }

    fn choice(line: usize, events: u32, preference: Preference) -> Choice {
        Choice {
            line,
            events,
            preference,
        }
    }

    #[test]
    fn choices_stand_anywhere_and_keep_their_sequence(rt: HostRuntime) -> Result<(), Fail> {
        let text =
            "after 7 events try farthest\nfarms 1 # one\nafter 0 events try smallest\ntankers 1\nmilked 1 500 at 5\nafter 4294967295\tevents try nearest\nend 90\nmilked 1 20 at 6\nafter 7 events try smallest # once more";
        let plan = read(rt.alloc(), text.as_bytes())?;
        assert_eq!(rt;
            plan.choices.as_slice(),
            [
                choice(1, 7, Preference::Farthest),
                choice(3, 0, Preference::Smallest),
                choice(6, 4294967295, Preference::Nearest),
                choice(9, 7, Preference::Smallest),
            ]
            .as_slice()
        );
        assert_eq!(rt; (plan.farms, plan.tankers, plan.end), (1, 1, 90));
        assert_eq!(rt;
            plan.milkings.as_slice(),
            [
                Milking {
                    line: 5,
                    start: milk(5, 1, 500)
                },
                Milking {
                    line: 8,
                    start: milk(6, 1, 20)
                },
            ]
            .as_slice()
        );
        Ok(())
    }

    fn flaw_of(heap: Global, text: &str) -> Option<Flaw> {
        read(heap, text.as_bytes()).err()
    }

    #[test]
    fn the_first_flaw_is_told_with_its_line(rt: HostRuntime) {
        let table = [
            ("", 1, FlawKind::FarmsMissing),
            ("farms 3\nend 5\n", 3, FlawKind::TankersMissing),
            ("farms 3\ntankers 1", 3, FlawKind::EndMissing),
            ("farms 3\nherds 2", 2, FlawKind::UnknownWord),
            ("\nfarms", 2, FlawKind::Word(WordFlaw::TooFewWords)),
            ("farms 3 4", 1, FlawKind::Word(WordFlaw::TooManyWords)),
            ("farms +3", 1, FlawKind::Word(WordFlaw::NotANumber)),
            ("farms 256", 1, FlawKind::Word(WordFlaw::OutOfRange)),
            ("end 4294967296", 1, FlawKind::Word(WordFlaw::OutOfRange)),
            (
                "end 100000000000000000000",
                1,
                FlawKind::Word(WordFlaw::OutOfRange),
            ),
            ("farms 3\n#\nfarms 3", 3, FlawKind::GivenTwice),
            ("milked 1 5 at 0\nfarms 3", 1, FlawKind::MilkedBeforeFarms),
            (
                "farms 3\nmilked 0 5 at 0",
                2,
                FlawKind::Word(WordFlaw::OutOfRange),
            ),
            (
                "farms 3\nmilked 4 5 at 0",
                2,
                FlawKind::Word(WordFlaw::OutOfRange),
            ),
            ("farms 3\nmilked 1 5 0", 2, FlawKind::AtMissing),
            (
                "farms 3\nmilked 1 5 at",
                2,
                FlawKind::Word(WordFlaw::TooFewWords),
            ),
        ];
        for (text, line, kind) in table {
            assert_eq!(rt;
                flaw_of(rt.alloc(), text),
                Some(Flaw { line, kind }),
                "{}",
                text
            );
        }
    }

    #[test]
    fn the_first_flaw_of_a_choice_is_told_with_its_line(rt: HostRuntime) {
        let table = [
            ("after", 1, FlawKind::Word(WordFlaw::TooFewWords)),
            (
                "\nafter ten events try nearest",
                2,
                FlawKind::Word(WordFlaw::NotANumber),
            ),
            (
                "after 4294967296 events try nearest",
                1,
                FlawKind::Word(WordFlaw::OutOfRange),
            ),
            ("after 7", 1, FlawKind::Word(WordFlaw::TooFewWords)),
            ("farms 3\nafter 7 try nearest", 2, FlawKind::EventsMissing),
            ("after 7 event try nearest", 1, FlawKind::EventsMissing),
            ("after 7 events", 1, FlawKind::Word(WordFlaw::TooFewWords)),
            ("# no\n\nafter 7 events nearest", 3, FlawKind::TryMissing),
            (
                "after 7 events try",
                1,
                FlawKind::Word(WordFlaw::TooFewWords),
            ),
            (
                "farms 3\nafter 7 events try longest",
                2,
                FlawKind::UnknownPreference,
            ),
            ("after 7 events try Nearest", 1, FlawKind::UnknownPreference),
            (
                "after 7 events try nearest farm",
                1,
                FlawKind::Word(WordFlaw::TooManyWords),
            ),
            ("After 7 events try nearest", 1, FlawKind::UnknownWord),
            ("after 7 events try nearest", 2, FlawKind::FarmsMissing),
        ];
        for (text, line, kind) in table {
            assert_eq!(rt;
                flaw_of(rt.alloc(), text),
                Some(Flaw { line, kind }),
                "{}",
                text
            );
        }
    }

    #[test]
    fn a_flaw_is_told_in_plain_words(rt: HostRuntime) -> Result<(), Fail> {
        let flaw = Flaw {
            line: 5,
            kind: FlawKind::AtMissing,
        };
        let told = flaw.to_string(rt.alloc())?;
        assert_eq!(rt;
            told.as_str(),
            "line 5: \"at\" is missing between litres and time"
        );
        Ok(())
    }
}
