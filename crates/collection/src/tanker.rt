// A tanker goes where the dairy sends it, loads, unloads and is free again.
ghost use Rattle.std.specs.Prelude.{◌≡◌};
ghost use Rattle.collection.specs.Tanker.{stage_number, Staged, tanker_reaction};
ghost use Rattle.collection.specs.Replies.{reacted};

use super::choice::drive;
use super::reaction::ignore;
use super::{Collection, DAIRY, Kind};
use model::{Arrival, Sends, Sent, Words};

// The stage of a trip.
#[derive(Clone, Copy, PartialEq, Eq, Debug)]
enum Stage {
    Idle,
    Out,
    Back,
}

// A number that no stage has.
#[derive(Clone, Copy, PartialEq, Eq, Debug)]
struct UnknownStage;

impl From<Stage> for u32 {
    ghost from_gives = { λ stage n. n ≡ stage_number stage };

    fn from(stage: Stage) -> u32 {
        stage as u32
    }
}

impl TryFrom<u32> for Stage {
    type Error = UnknownStage;

    ghost try_from_gives = { Staged };

    fn try_from(number: u32) -> Result<Stage, UnknownStage> {
        match number {
            0 => Ok(Stage::Idle),
            1 => Ok(Stage::Out),
            2 => Ok(Stage::Back),
            _ => Err(UnknownStage),
        }
    }
}

impl Collection {
    pub(super) fn at_tanker(&self, words: &mut Words, arrival: Arrival) -> Sends
        ensures { reacted words.new result ≡ tanker_reaction self.now.farms words.old arrival }
    {
        match (Stage::try_from(words[0]), Kind::try_from(arrival.kind)) {
            (Ok(Stage::Idle), Ok(Kind::Go))
                if arrival.sender == DAIRY && self.is_farm(arrival.data) => {
                let farm = arrival.data as u8;
                words[0] = Stage::Out.into();
                words[1] = arrival.data;
                Sends::One(Sent {
                    receiver: farm,
                    delay: drive(farm),
                    kind: Kind::Pump.into(),
                    data: 0,
                })
            }
            (Ok(Stage::Out), Ok(Kind::Loaded))
                if u32::from(arrival.sender) == words[1] && self.is_farm(words[1]) => {
                words[0] = Stage::Back.into();
                Sends::One(Sent {
                    receiver: DAIRY,
                    delay: drive(arrival.sender),
                    kind: Kind::Unload.into(),
                    data: arrival.data,
                })
            }
            (Ok(Stage::Back), Ok(Kind::Emptied)) if arrival.sender == DAIRY => {
                words[0] = Stage::Idle.into();
                Sends::One(Sent {
                    receiver: DAIRY,
                    delay: 1,
                    kind: Kind::Free.into(),
                    data: 0,
                })
            }
            _ => ignore(words, arrival),
        }
    }
}
