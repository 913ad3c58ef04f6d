// Lines of replay scripts and what they are read as, and answers and what is printed.
#![tactic(auto)]

#[cfg(test)]
mod tests {
    use day::Place;
    use event::{Message, Start};
    use refusal::{Layer, Refusal};
    use script::{Answer, CalendarKind, Command, Flaw, ModelSize, read_line};
    use std::test::Fail;
    use text::WordFlaw;

    const SCRIPT: [(&str, Command); 21] = [
        ("calendar heap", Command::Calendar(CalendarKind::Heap)),
        ("calendar buckets", Command::Calendar(CalendarKind::Buckets)),
        (
            "model collection 10 6",
            Command::Model(ModelSize::Collection {
                farms: 10,
                tankers: 6,
            }),
        ),
        (
            "model phold 32 2147483646 7",
            Command::Model(ModelSize::Phold {
                places: 32,
                seed: 2147483646,
                replication: 7,
            }),
        ),
        (
            "start 4294967295 255 7 4294967295",
            Command::Start(Start {
                time: 4294967295,
                receiver: 255,
                kind: 7,
                data: 4294967295,
            }),
        ),
        ("load 1000001", Command::Load { end: 1000001 }),
        ("step", Command::Step { count: 1 }),
        ("step 0", Command::Step { count: 0 }),
        ("step 12", Command::Step { count: 12 }),
        ("branch 0", Command::Branch { variant: 0 }),
        (
            "decide 1 0 4294967295",
            Command::Decide {
                variant: 1,
                place: 0,
                order: 4294967295,
            },
        ),
        ("waive 2", Command::Waive { variant: 2 }),
        ("retire 255", Command::Retire { variant: 255 }),
        ("events 3", Command::Events { variant: 3 }),
        (
            "entry 4 2048",
            Command::Entry {
                variant: 4,
                position: 2048,
            },
        ),
        ("journal 5", Command::Journal { variant: 5 }),
        (
            "place 6 7",
            Command::Place {
                variant: 6,
                place: 7,
            },
        ),
        ("next 8", Command::Next { variant: 8 }),
        (
            "shares 9 10 11",
            Command::Shares {
                variant: 9,
                other: 10,
                place: 11,
            },
        ),
        (
            "\tgroup  12 013\t# a comment\r",
            Command::Group {
                variant: 12,
                place: 13,
            },
        ),
        ("totals#", Command::Totals),
    ];

    #[test]
    fn every_command_is_read(rt: HostRuntime) {
        for (line, command) in SCRIPT {
            assert_eq!(rt; read_line(line.as_bytes()), Ok(Some(command)), "{}", line);
        }
    }

    #[test]
    fn a_line_with_no_word_says_nothing(rt: HostRuntime) {
        for line in ["", " \t \r", "# step 3", "   #"] {
            assert_eq!(rt; read_line(line.as_bytes()), Ok(None), "{}", line);
        }
    }

    #[test]
    fn the_first_flaw_of_a_line_is_told(rt: HostRuntime) {
        let table = [
            ("run 3", Flaw::UnknownWord),
            ("Step", Flaw::UnknownWord),
            ("calendar list", Flaw::UnknownWord),
            ("calendar heap heap", Flaw::Word(WordFlaw::TooManyWords)),
            ("calendar", Flaw::Word(WordFlaw::TooFewWords)),
            ("model", Flaw::Word(WordFlaw::TooFewWords)),
            ("model collection 3", Flaw::Word(WordFlaw::TooFewWords)),
            ("model collection 3 1 1", Flaw::Word(WordFlaw::TooManyWords)),
            ("model collection 256 1", Flaw::Word(WordFlaw::OutOfRange)),
            (
                "model phold 4 4294967296 0",
                Flaw::Word(WordFlaw::OutOfRange),
            ),
            ("model phold 4 1", Flaw::Word(WordFlaw::TooFewWords)),
            ("model farms 3 1", Flaw::UnknownWord),
            ("start 0 1 0", Flaw::Word(WordFlaw::TooFewWords)),
            ("start 0 256 0 0", Flaw::Word(WordFlaw::OutOfRange)),
            ("start 0 1 256 0", Flaw::Word(WordFlaw::OutOfRange)),
            ("start 0 1 0 0 0", Flaw::Word(WordFlaw::TooManyWords)),
            ("load", Flaw::Word(WordFlaw::TooFewWords)),
            ("load -1", Flaw::Word(WordFlaw::NotANumber)),
            ("load 3000s", Flaw::Word(WordFlaw::NotANumber)),
            ("step 1 1", Flaw::Word(WordFlaw::TooManyWords)),
            ("step one", Flaw::Word(WordFlaw::NotANumber)),
            (
                "step 99999999999999999999",
                Flaw::Word(WordFlaw::OutOfRange),
            ),
            ("decide 1 0", Flaw::Word(WordFlaw::TooFewWords)),
            ("entry 0", Flaw::Word(WordFlaw::TooFewWords)),
            ("place 0", Flaw::Word(WordFlaw::TooFewWords)),
            ("shares 0 1", Flaw::Word(WordFlaw::TooFewWords)),
            ("group 0 1 2", Flaw::Word(WordFlaw::TooManyWords)),
            ("totals 0", Flaw::Word(WordFlaw::TooManyWords)),
        ];
        for (line, flaw) in table {
            assert_eq!(rt; read_line(line.as_bytes()), Err(flaw), "{}", line);
        }
    }

    #[test]
    fn what_is_no_text_is_an_unknown_word(rt: HostRuntime) {
        assert_eq!(rt; read_line(&[255, 254]), Err(Flaw::UnknownWord));
    }

    #[test]
    fn flaws_are_told_in_plain_words(rt: HostRuntime) -> Result<(), Fail> {
        let table = [
            (Flaw::UnknownWord, "a word is unknown"),
            (
                Flaw::Word(WordFlaw::TooFewWords),
                "a word is missing at the end",
            ),
            (
                Flaw::Word(WordFlaw::TooManyWords),
                "there is a word too many",
            ),
            (
                Flaw::Word(WordFlaw::NotANumber),
                "a number is wanted, of decimal digits only",
            ),
            (
                Flaw::Word(WordFlaw::OutOfRange),
                "a number is too small or too large",
            ),
        ];
        for (flaw, words) in table {
            let told = flaw.to_string(rt.alloc())?;
            assert_eq!(rt; told.as_str(), words);
        }
        Ok(())
    }

    const MESSAGE: Message = Message {
        time: 2015,
        receiver: 4,
        sender: 0,
        number: 2,
        kind: 3,
        data: 1,
    };

    #[test]
    fn every_answer_is_printed(rt: HostRuntime) -> Result<(), Fail> {
        let table = [
            (
                Answer::Model(ModelSize::Collection {
                    farms: 3,
                    tankers: 1,
                }),
                "model collection 3 1",
            ),
            (
                Answer::Model(ModelSize::Phold {
                    places: 4,
                    seed: 31,
                    replication: 0,
                }),
                "model phold 4 31 0",
            ),
            (Answer::Loaded(0), "loaded 0"),
            (Answer::Ran(2), "ran 2"),
            (Answer::Branched(1), "branched 1"),
            (Answer::Decided(1), "decided 1"),
            (Answer::Waived(15), "waived 15"),
            (Answer::Retired(0), "retired 0"),
            (Answer::Events(15), "events 15"),
            (Answer::Entry(MESSAGE), "entry 2015 4 0 2 3 1"),
            (
                Answer::Place(Place {
                    words: [1, 2, 3, 4, 5, 6, 7, 4294967295],
                    order: 9,
                    sent: 10,
                }),
                "place 1 2 3 4 5 6 7 4294967295 order 9 sent 10",
            ),
            (Answer::Next(Some(MESSAGE)), "next 2015 4 0 2 3 1"),
            (Answer::Next(None), "next nothing"),
            (Answer::Shares(true), "shares yes"),
            (Answer::Shares(false), "shares no"),
            (Answer::Group(16), "group 16"),
            (
                Answer::Totals {
                    executions: 21,
                    copies: 9,
                    entries: 20,
                },
                "totals 21 9 20",
            ),
            (Answer::NoPermit(3), "no permit 3"),
            (Answer::NoStudy, "no study"),
            (
                Answer::Refused(Refusal {
                    number: 7,
                    layer: Layer::Calendar,
                    position: 512,
                }),
                "refused 7 calendar 512",
            ),
            (
                Answer::Refused(Refusal {
                    number: 1,
                    layer: Layer::Model,
                    position: 0,
                }),
                "refused 1 model 0",
            ),
            (
                Answer::Refused(Refusal {
                    number: 16,
                    layer: Layer::Study,
                    position: 0,
                }),
                "refused 16 study 0",
            ),
        ];
        for (answer, line) in table {
            let printed = answer.to_string(rt.alloc())?;
            assert_eq!(rt; printed.as_str(), line);
        }
        Ok(())
    }
}
