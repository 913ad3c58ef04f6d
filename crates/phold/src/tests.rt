// Limits, starting words and reactions, worked out from the rules.
use super::*;
use std::process::Abort;
use std::test::Fail;

#[test]
fn limits_are_kept(rt: HostRuntime) {
    assert!(rt; Phold::new(32, 2147483646, 7).is_ok());
    for (places, seed, replication) in [
        (0, 1, 0),
        (33, 1, 0),
        (1, 0, 0),
        (1, 2147483647, 0),
        (1, 1, 8),
    ] {
        assert_eq!(rt;
            Phold::new(places, seed, replication),
            Err(ModelFault::Limits)
        );
    }
}

#[test]
fn places_begin_at_their_streams(rt: HostRuntime) -> Result<(), Fail> {
    let model = Phold::new(32, 12345, 7)?;
    assert_eq!(rt; model.start(31), [2128396975, 0, 0, 0, 0, 0, 0, 0]);
    assert_eq!(rt; model.start(32), [0; 8]);
    Ok(())
}

// Of four places, this one with these two first words and this order does that with data 77.
fn passes(
    rt: &impl Abort,
    place: u8,
    order: u32,
    before: [u32; 2],
    after: [u32; 2],
    sends: Sends,
) -> Result<(), Fail> {
    let arrival = Arrival {
        time: 1903,
        sender: 2,
        kind: 5,
        data: 77,
    };
    let mut words = [before[0], before[1], 0, 0, 0, 0, 0, 8];
    assert_eq!(rt;
        Phold::new(4, 1, 0)?.react(place, order, &mut words, arrival),
        sends
    );
    assert_eq!(rt; words, [after[0], after[1], 0, 0, 0, 0, 0, 8]);
    Ok(())
}

fn to(receiver: u8, delay: u32) -> Sends {
    Sends::One(Sent {
        receiver,
        delay,
        kind: PASSED_ON,
        data: 77,
    })
}

#[test]
fn places_pass_messages_on(rt: HostRuntime) -> Result<(), Fail> {
    passes(&rt, 2, 0, [1, 0], [282475249, 1], to(3, 50))?;
    // an order tells by its remainder at 256
    passes(&rt, 2, 255, [1, 0], [282475249, 1], to(3, 4850))?;
    passes(&rt, 2, 256, [1, 0], [282475249, 1], to(3, 50))?;
    // a word above the modulus is reduced, and a full count stands
    passes(
        &rt,
        3,
        0,
        [4294967295, 4294967295],
        [282475249, 4294967295],
        to(3, 50),
    )?;
    // there is no place 4
    passes(&rt, 4, 0, [1, 0], [1, 0], Sends::Nothing)
}
