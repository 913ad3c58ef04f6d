// Starting messages, and messages written in short.
use collection::Kind;
use event::{Message, Start};
use phold::PASSED_ON;

// time, receiver, sender, number, kind, data
pub(crate) type Row = (u32, u8, u8, u32, u8, u32);

pub(crate) fn message(row: &Row) -> Message {
    let (time, receiver, sender, number, kind, data) = *row;
    Message {
        time,
        receiver,
        sender,
        number,
        kind,
        data,
    }
}

pub(crate) fn milked(farm: u8, litres: u32, time: u32) -> Start {
    Start {
        time,
        receiver: farm,
        kind: Kind::Milked.into(),
        data: litres,
    }
}

pub(crate) fn passed(place: u8, data: u32, time: u32) -> Start {
    Start {
        time,
        receiver: place,
        kind: PASSED_ON,
        data,
    }
}
