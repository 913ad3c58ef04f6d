// Reactions with three farms and two tankers, worked out from the rules.
use super::*;
use model::{Arrival, Model, Sends, Sent, Words};
use std::process::Abort;
use std::test::Fail;

#[derive(Drop)]
struct Case {
    place: u8,
    order: u32,
    words: Words,
    arrival: Arrival,
    after: Words,
    sends: Sends,
}

fn arrival(time: u32, sender: u8, kind: Kind, data: u32) -> Arrival {
    Arrival {
        time,
        sender,
        kind: kind.into(),
        data,
    }
}

fn sent(receiver: u8, delay: u32, kind: Kind, data: u32) -> Sends {
    Sends::One(Sent {
        receiver,
        delay,
        kind: kind.into(),
        data,
    })
}

fn all_react(rt: &impl Abort, cases: &[Case]) -> Result<(), Fail> {
    for case in cases {
        let mut words = case.words;
        let sends = Collection::new(3, 2)?.react(case.place, case.order, &mut words, case.arrival);
        assert_eq!(rt; words, case.after);
        assert_eq!(rt; sends, case.sends);
    }
    Ok(())
}

#[test]
fn the_dairy_chooses_and_unloads(rt: HostRuntime) -> Result<(), Fail> {
    all_react(
        &rt,
        &[
            // farms 1 and 3 wait: order 0 takes 1
            Case {
                place: 0,
                order: 0,
                words: [2, 6, 0, 0, 0, 0, 0, 0],
                arrival: arrival(7, 3, Kind::Ready, 0),
                after: [8, 4, 0, 0, 0, 0, 0, 0],
                sends: sent(4, 1, Kind::Go, 1),
            },
            // and order 1 takes 3
            Case {
                place: 0,
                order: Preference::Farthest.into(),
                words: [2, 6, 0, 0, 0, 0, 0, 0],
                arrival: arrival(7, 3, Kind::Ready, 0),
                after: [2, 4, 0, 0, 0, 0, 0, 0],
                sends: sent(4, 1, Kind::Go, 3),
            },
            // farms 2 and 3 wait: order 0 takes 2 as tanker 2 becomes free
            Case {
                place: 0,
                order: 0,
                words: [12, 0, 0, 0, 0, 0, 0, 0],
                arrival: arrival(7, 5, Kind::Free, 0),
                after: [8, 0, 0, 0, 0, 0, 0, 0],
                sends: sent(5, 1, Kind::Go, 2),
            },
            // and so does order 1
            Case {
                place: 0,
                order: Preference::Farthest.into(),
                words: [4, 6, 0, 0, 0, 0, 0, 0],
                arrival: arrival(7, 3, Kind::Ready, 0),
                after: [8, 4, 0, 0, 0, 0, 0, 0],
                sends: sent(4, 1, Kind::Go, 2),
            },
            // unloading 1,000 at 1903
            Case {
                place: 0,
                order: 0,
                words: [0, 0, 0, 0, 0, 0, 0, 0],
                arrival: arrival(1903, 4, Kind::Unload, 1000),
                after: [0, 0, 2013, 1000, 0, 0, 0, 0],
                sends: sent(4, 110, Kind::Emptied, 0),
            },
            // behind another that ends at 2000
            Case {
                place: 0,
                order: 0,
                words: [0, 0, 2000, 0, 0, 0, 0, 0],
                arrival: arrival(1903, 4, Kind::Unload, 1000),
                after: [0, 0, 2110, 1000, 0, 0, 0, 0],
                sends: sent(4, 207, Kind::Emptied, 0),
            },
            // the bay's end and the litres stand at the largest word, and the delay at a day
            Case {
                place: 0,
                order: 0,
                words: [0, 0, 4294967290, 4294967000, 0, 0, 0, 0],
                arrival: arrival(1903, 4, Kind::Unload, 1000),
                after: [0, 0, 4294967295, 4294967295, 0, 0, 0, 0],
                sends: sent(4, 86400, Kind::Emptied, 0),
            },
            // a farm does not unload: its litres are kept apart
            Case {
                place: 0,
                order: 0,
                words: [0, 6, 0, 0, 0, 0, 0, 0],
                arrival: arrival(7, 3, Kind::Unload, 50),
                after: [0, 6, 0, 0, 0, 0, 0, 50],
                sends: Sends::Nothing,
            },
        ],
    )
}

#[test]
fn farms_and_tankers_answer(rt: HostRuntime) -> Result<(), Fail> {
    let loaded = Sent {
        receiver: 4,
        delay: 2001,
        kind: Kind::Loaded.into(),
        data: 20000,
    };
    let ready = Sent {
        receiver: DAIRY,
        delay: 1,
        kind: Kind::Ready.into(),
        data: 0,
    };
    all_react(
        &rt,
        &[
            // pumping 25,000 litres
            Case {
                place: 2,
                order: 0,
                words: [25000, 1, 0, 0, 0, 0, 0, 0],
                arrival: arrival(7, 4, Kind::Pump, 0),
                after: [5000, 1, 0, 0, 0, 0, 0, 0],
                sends: Sends::Two(loaded, ready),
            },
            // milk of 0 litres is announced
            Case {
                place: 2,
                order: 0,
                words: [0, 0, 0, 0, 0, 0, 0, 0],
                arrival: arrival(7, 255, Kind::Milked, 0),
                after: [0, 1, 0, 0, 0, 0, 0, 0],
                sends: Sends::One(ready),
            },
            // the dairy does not pump
            Case {
                place: 2,
                order: 0,
                words: [500, 1, 0, 0, 0, 0, 0, 0],
                arrival: arrival(7, 0, Kind::Pump, 9),
                after: [500, 1, 0, 0, 0, 0, 0, 0],
                sends: Sends::Nothing,
            },
            // tanker 1 is sent to farm 3
            Case {
                place: 4,
                order: 0,
                words: [0, 0, 0, 0, 0, 0, 0, 0],
                arrival: arrival(7, 0, Kind::Go, 3),
                after: [1, 3, 0, 0, 0, 0, 0, 0],
                sends: sent(3, 900, Kind::Pump, 0),
            },
            // there is no farm 4
            Case {
                place: 4,
                order: 0,
                words: [0, 0, 0, 0, 0, 0, 0, 0],
                arrival: arrival(7, 0, Kind::Go, 4),
                after: [0, 0, 0, 0, 0, 0, 0, 0],
                sends: Sends::Nothing,
            },
            // it hears of a load that is not from its farm
            Case {
                place: 4,
                order: 0,
                words: [1, 3, 0, 0, 0, 0, 0, 4294967290],
                arrival: arrival(7, 2, Kind::Loaded, 500),
                after: [1, 3, 0, 0, 0, 0, 0, 4294967295],
                sends: Sends::Nothing,
            },
            // there is no place 6
            Case {
                place: 6,
                order: 0,
                words: [1, 2, 3, 4, 5, 6, 7, 8],
                arrival: arrival(7, 255, Kind::Milked, 500),
                after: [1, 2, 3, 4, 5, 6, 7, 8],
                sends: Sends::Nothing,
            },
        ],
    )
}
