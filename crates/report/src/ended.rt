// A collection day that has ended.
ghost use Rattle.std.specs.Prelude.{◌≡◌, ◌+◌, ◌≤◌, vec_len};

use collection::Collection;
use day::Place;
use event::Message;

// How a day has ended: its places by their numbers, and what has run, oldest first. Nothing waits any more.
#[derive(Drop)]
pub struct Ended {
    pub model: Collection,
    pub places: Vec<Place>,
    pub journal: Vec<Message>,
    ghost all: { vec_len places ≡ 1 + model.farms + model.tankers },
}

impl Ended {
    ghost use Rattle.report.specs.Days.{the_day};

    // A place of the day.
    pub(crate) fn place(&self, p: u8) -> Place
        requires { p ≤ self.now.model.farms + self.now.model.tankers }
        ensures { result ≡ (the_day self.now).place p }
    {
        self.places[usize::from(p)]
    }
}
