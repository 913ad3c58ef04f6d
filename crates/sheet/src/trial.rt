// What a variant tries.
use collection::Preference;

// The farm that the dairy prefers, once so many events have run.
#[derive(Clone, Copy, PartialEq, Eq, Debug)]
pub struct Trial {
    pub preference: Preference,
    pub events: u32,
}
