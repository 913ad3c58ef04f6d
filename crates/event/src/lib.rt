// Messages of a day, the order of their keys, and insertion into a list in that order.
#![tactic(auto)]

ghost use Rattle.std.specs.Prelude.{◌≡◌, ℕ, ◌+◌, ◌<◌, ◌≤◌, Bool, true, ◌∷◌, length, is_ok, if◌then◌else◌, Ok, Err, vec_len, vec_capacity, filter, nat_lt};
ghost use Rattle.std.specs.List.{insert as inserted};
ghost use Rattle.std.specs.List.Sorted.{IsPermutation};
ghost use Rattle.event.specs.Keys.{key_of, before, StrictOrder};
ghost use Rattle.event.specs.Lists.{insert, has_room, Sorted};
ghost use Rattle.event.specs.Starts.{message_of};

// The sender of every starting message; no place has this number. No Option: a message has its sender in 8 bits, and keys compare it.
pub const START_SENDER: u8 = 255;

// A message that waits, or has run, at its receiver. Its kind is a number: each model has kinds of its own, and any number may come.
#[derive(Clone, Copy, PartialEq, Eq, Debug)]
pub struct Message {
    pub time: u32,
    pub receiver: u8,
    pub sender: u8,
    pub number: u32,
    pub kind: u8,
    pub data: u32,
}

// What the sequence of messages goes by.
#[derive(Clone, Copy, PartialEq, Eq, PartialOrd, Ord, Debug)]
pub struct Key {
    pub time: u32,
    pub receiver: u8,
    pub sender: u8,
    pub number: u32,
}

// A starting message as it is given: sender and number follow from its position in the list. Its kind is a number, as a message's.
#[derive(Clone, Copy, PartialEq, Eq, Debug)]
pub struct Start {
    pub time: u32,
    pub receiver: u8,
    pub kind: u8,
    pub data: u32,
}

impl Message {
    pub fn key(&self) -> Key
        ensures { result ≡ key_of self.now }
    {
        Key {
            time: self.time,
            receiver: self.receiver,
            sender: self.sender,
            number: self.number,
        }
    }
}

impl Key {
    // Whether this key comes before the other: by time, receiver, sender and number, smaller first.
    pub fn precedes(&self, other: &Key) -> bool
        ensures value { result ≡ before self.now other.now }
        ensures strict { StrictOrder }
    {
        self < other
    }
}

impl Start {
    // The starting message at this position of its list.
    pub fn message(&self, position: u32) -> Message
        ensures { result ≡ message_of position self.now }
    {
        Message {
            time: self.time,
            receiver: self.receiver,
            sender: START_SENDER,
            number: position,
            kind: self.kind,
            data: self.data,
        }
    }
}

// The index at which m goes into a list in order: behind those that it does not come before.
fn place_for(list: &[Message], m: &Message) -> usize
    ensures within { result ≤ length list.now }
    ensures value { insert key_of m.now list.now ≡ inserted list.now result m.now }
{
    let key = m.key();
    list.iter()
        .position(|x| key.precedes(&x.key()))
        .unwrap_or(list.len())
}

// Puts m into a list in order, behind those with its key. Hands it back where the room is used up, and never allocates.
pub fn insert_by_key(list: &mut Vec<Message>, m: Message) -> Result<(), Message>
    ensures told { result ≡ (if has_room list.old then Ok tt else Err m) }
    ensures items { list.new.items ≡ (if has_room list.old then insert key_of m list.old.items else list.old.items) }
    ensures len { vec_len list.new ≡ (if has_room list.old then vec_len list.old + 1 else vec_len list.old) }
    ensures capacity { vec_capacity list.new ≡ vec_capacity list.old }
    ensures sorted { Sorted key_of list.old.items → Sorted key_of list.new.items }
    ensures shuffled { is_ok result ≡ true → IsPermutation (m ∷ list.old.items) list.new.items }
    ensures filtered { is_ok result ≡ true → Sorted key_of list.old.items → (p : Message → Bool) → filter p list.new.items ≡ (if p m then insert key_of m (filter p list.old.items) else filter p list.old.items) }
{
    if list.len() >= list.capacity() {
        return Err(m);
    }
    list.insert(place_for(list, &m), m).map_err(|e| e.value)
}
