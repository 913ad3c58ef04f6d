// What an event of a collection day was.
ghost use Rattle.std.specs.Prelude.{◌≡◌};
ghost use Rattle.report.specs.Deeds.{who_of, ignored, sent_out_of, dairy_deed, farm_deed, tanker_deed, deed_of};

use collection::{Collection, DAIRY, Kind};
use day::Ran;
use event::Message;
use model::Sent;

// Who a place is.
#[derive(Clone, Copy, PartialEq, Eq, Debug)]
pub enum Who {
    Dairy,
    Farm(u8),
    Tanker(u8),
    // no place of the day, as the sender of a starting message; a case and no None, since it is printed like the others
    Nobody,
}

#[derive(Clone, Copy, PartialEq, Eq, Debug)]
pub enum Deed {
    Milked { farm: u8, litres: u32 },
    Waits { farm: u8 },
    SentOut { tanker: u8, farm: u32 },
    Free { tanker: u8 },
    Drives { tanker: u8, farm: u8 },
    Pumps { tanker: u8, farm: u8, litres: u32 },
    Leaves { tanker: u8, farm: u8, litres: u32 },
    Unloads { tanker: u8, litres: u32 },
    Emptied { tanker: u8 },
    Ignores { who: Who, kind: u8, sender: Who },
}

impl Who {
    // Who the place of this number is.
    pub fn at(model: &Collection, place: u8) -> Who
        ensures { result ≡ who_of model.now.farms model.now.tankers place }
    {
        let farms = model.farms();
        if place == DAIRY {
            return Who::Dairy;
        }
        if place <= farms {
            return Who::Farm(place);
        }
        if place - farms <= model.tankers() {
            return Who::Tanker(place - farms);
        }
        Who::Nobody
    }
}

// A message that has run: who sent it, and what its receiver sent first.
#[derive(Clone, Copy)]
struct Heard {
    message: Message,
    sender: Who,
    sent: Option<Sent>,
}

impl Heard {
    // Whoever ignores it.
    fn ignored(self, who: Who) -> Deed
        ensures { result ≡ ignored who self.message self.sender }
    {
        Deed::Ignores {
            who,
            kind: self.message.kind,
            sender: self.sender,
        }
    }

    // The dairy sends a tanker out, or else.
    fn sent_out(self, farms: u8, or_else: Deed) -> Deed
        ensures { result ≡ sent_out_of farms self.sent or_else }
    {
        self.sent.map_or(
            or_else,
            |go| Deed::SentOut {
                tanker: go.receiver.saturating_sub(farms),
                farm: go.data,
            },
        )
    }

    fn at_dairy(self, farms: u8) -> Deed
        ensures { result ≡ dairy_deed farms self.message self.sender self.sent }
    {
        match (Kind::try_from(self.message.kind), self.sender) {
            (Ok(Kind::Ready), Who::Farm(farm)) => self.sent_out(farms, Deed::Waits { farm }),
            (Ok(Kind::Free), Who::Tanker(tanker)) => self.sent_out(farms, Deed::Free { tanker }),
            (Ok(Kind::Unload), Who::Tanker(tanker)) => Deed::Unloads {
                tanker,
                litres: self.message.data,
            },
            _ => self.ignored(Who::Dairy),
        }
    }

    fn at_farm(self, farm: u8) -> Deed
        ensures { result ≡ farm_deed farm self.message self.sender self.sent }
    {
        match (Kind::try_from(self.message.kind), self.sender, self.sent) {
            (Ok(Kind::Milked), _, _) => Deed::Milked {
                farm,
                litres: self.message.data,
            },
            (Ok(Kind::Pump), Who::Tanker(tanker), Some(loaded)) => Deed::Pumps {
                tanker,
                farm,
                litres: loaded.data,
            },
            _ => self.ignored(Who::Farm(farm)),
        }
    }

    // A tanker that sends nothing has ignored the message.
    fn at_tanker(self, tanker: u8) -> Deed
        ensures { result ≡ tanker_deed tanker self.message self.sender self.sent }
    {
        match (Kind::try_from(self.message.kind), self.sender, self.sent) {
            (Ok(Kind::Go), _, Some(pump)) => Deed::Drives {
                tanker,
                farm: pump.receiver,
            },
            (Ok(Kind::Emptied), _, Some(_)) => Deed::Emptied { tanker },
            (Ok(Kind::Loaded), Who::Farm(farm), Some(_)) => Deed::Leaves {
                tanker,
                farm,
                litres: self.message.data,
            },
            _ => self.ignored(Who::Tanker(tanker)),
        }
    }
}

impl Deed {
    // What an event of the day was.
    pub fn of(model: &Collection, ran: &Ran) -> Deed
        ensures { result ≡ deed_of model.now.farms model.now.tankers ran.now }
    {
        let heard = Heard {
            message: ran.message,
            sender: Who::at(model, ran.message.sender),
            sent: ran.sends.first(),
        };
        match Who::at(model, ran.message.receiver) {
            Who::Dairy => heard.at_dairy(model.farms()),
            Who::Farm(farm) => heard.at_farm(farm),
            Who::Tanker(tanker) => heard.at_tanker(tanker),
            Who::Nobody => heard.ignored(Who::Nobody),
        }
    }
}
