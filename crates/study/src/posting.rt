// What a group sends goes into the calendar.
ghost use Rattle.std.specs.Prelude.{◌≡◌, ◌+◌, ◌^◌, ◌<◌, [], ◌∷◌, Some, None, if◌then◌else◌, nat_lt};
ghost use Rattle.model.specs.Meaning.{listed};
ghost use Rattle.day.specs.Day.{stamp, stamped, within};
ghost use Rattle.follows.specs.Rooms.{put_each};

use calendar::{Calendar, Held};
use event::Message;
use group::Group;
use model::{Sends, Sent};

// For whom messages are sent, and how late they may be.
#[derive(Clone, Copy)]
pub(crate) struct Post {
    pub(crate) group: Group,
    pub(crate) end: u32,
}

// The message that is sent as m runs, with this number; none where its time does not fit.
fn sent_at(m: &Message, number: u32, sent: &Sent) -> Option<Message>
    ensures { result ≡ (if nat_lt (m.now.time + sent.now.delay) (2 ^ 32) then Some (stamp m.now.time m.now.receiver number sent.now) else None) }
{
    let time = m.time.checked_add(sent.delay)?;
    Some(Message {
        time,
        receiver: sent.receiver,
        sender: m.receiver,
        number,
        kind: sent.kind,
        data: sent.data,
    })
}

impl Post {
    // A message goes on to wait, unless it is later than the end of day.
    fn put<C: Calendar>(self, calendar: &mut C, m: &Message, number: u32, sent: &Sent)
        ensures held { C.meaning calendar.new ≡ put_each self.group (within self.end (stamp m.now.time m.now.receiver number sent.now ∷ [])) (C.meaning calendar.old) }
        ensures room { (C.meaning calendar.new).room ≡ (C.meaning calendar.old).room }
    {
        if let Some(message) = sent_at(m, number, sent)
            && message.time <= self.end
        {
            let _ = calendar.put(Held {
                message,
                group: self.group,
            });
        }
    }

    // And so does all that is sent as m runs, numbered from `number` on.
    pub(crate) fn put_all<C: Calendar>(
        self,
        calendar: &mut C,
        m: &Message,
        number: u32,
        sends: &Sends,
    )
        ensures room { (C.meaning calendar.new).room ≡ (C.meaning calendar.old).room }
        ensures held { number + 2 < 2 ^ 32 → C.meaning calendar.new ≡ put_each self.group (within self.end (stamped m.now.time m.now.receiver number (listed sends.now))) (C.meaning calendar.old) }
    {
        match sends {
            Sends::Nothing => {}
            Sends::One(sent) => self.put(calendar, m, number, sent),
            Sends::Two(first, second) => {
                self.put(calendar, m, number, first);
                self.put(calendar, m, number.saturating_add(1), second);
            }
        }
    }
}
