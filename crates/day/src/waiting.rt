// What waits on a lone day.
ghost use Rattle.std.specs.Prelude.{◌≡◌, ◌+◌, ◌^◌, ◌<◌, ◌≤◌, [], ◌∷◌, Some, vec_len};
ghost use Rattle.event.specs.Keys.{key_of};
ghost use Rattle.event.specs.Lists.{first, insert_all, rest};
ghost use Rattle.model.specs.Meaning.{Lawful, listed};
ghost use Rattle.day.specs.Day.{stamp, stamped, within};
ghost use Rattle.day.specs.Held.{SameBounds};

use crate::lone::Waiting;
use event::{Message, insert_by_key};
use model::{Sends, Sent};

// The message that s is, sent when m runs, as its sender's message of this number.
fn stamped_at(m: &Message, number: u32, s: &Sent) -> Message
    requires { m.now.time + s.now.delay < 2 ^ 32 }
    ensures { result ≡ stamp m.now.time m.now.receiver number s.now }
{
    Message {
        time: m.time + s.delay,
        receiver: s.receiver,
        sender: m.receiver,
        number,
        kind: s.kind,
        data: s.data,
    }
}

impl Waiting {
    // Takes the message with the smallest key.
    pub(crate) fn take_first(&mut self) -> Message
        requires { 0 < vec_len self.old.messages }
        ensures first { first self.old.messages.items ≡ Some result }
        ensures rest { self.new.messages.items ≡ rest self.old.messages.items }
        ensures len { vec_len self.new.messages + 1 ≡ vec_len self.old.messages }
        ensures soon { result.time ≤ 1000000 }
        ensures placed { result.receiver < 32 }
        ensures same { SameBounds self.old self.new }
    {
        self.messages.remove(0)
    }

    // m goes on to wait, unless it is later than the end of day.
    fn post(&mut self, m: Message)
        requires room { vec_len self.old.messages < self.old.capacity }
        requires placed { m.receiver < 32 }
        ensures items { self.new.messages.items ≡ insert_all key_of (within self.old.end (m ∷ [])) self.old.messages.items }
        ensures len { vec_len self.new.messages ≤ vec_len self.old.messages + 1 }
        ensures same { SameBounds self.old self.new }
    {
        if m.time <= self.end {
            let _ = insert_by_key(&mut self.messages, m);
        }
    }

    // What the receiver of m sends as it runs, numbered from `number` on, goes on to wait.
    pub(crate) fn post_all(&mut self, m: &Message, number: u32, sends: &Sends)
        requires room { vec_len self.old.messages + 2 ≤ self.old.capacity }
        requires soon { m.now.time ≤ 1000000 }
        requires few { number + 2 < 2 ^ 32 }
        requires lawful { Lawful 32 sends.now }
        ensures items { self.new.messages.items ≡ insert_all key_of (within self.old.end (stamped m.now.time m.now.receiver number (listed sends.now))) self.old.messages.items }
        ensures same { SameBounds self.old self.new }
    {
        match sends {
            Sends::Nothing => {}
            Sends::One(s) => self.post(stamped_at(m, number, s)),
            Sends::Two(a, b) => {
                self.post(stamped_at(m, number, a));
                self.post(stamped_at(m, number + 1, b));
            }
        }
    }
}
