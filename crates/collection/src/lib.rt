// A day of milk collection: farms announce their milk, the dairy sends tankers for it, and they unload at its bay.
#![tactic(auto)]

ghost use Rattle.std.specs.Prelude.{◌≡◌, ℕ, ◌≤◌, if◌then◌else◌, Ok, Err};
ghost use Rattle.std.specs.Result.{result_map_both};
ghost use Rattle.model.specs.declared.ModelFault.TheVariants.{Limits};
ghost use Rattle.collection.specs.Places.{allowed};

use model::ModelFault;

mod bits;
mod choice;
mod dairy;
mod farm;
mod kind;
mod places;
mod preference;
mod reaction;
mod tanker;
#[cfg(test)]
mod tests;

pub use kind::{Kind, UnknownKind};
pub use preference::Preference;

// The dairy's place. Farms follow it, and tankers follow them.
pub const DAIRY: u8 = 0;

// So many farms and tankers, and a dairy.
#[derive(Clone, Copy, PartialEq, Eq, Debug)]
pub struct Collection {
    farms: u8,
    tankers: u8,
    ghost limits: { (1 ≤ farms) × (farms ≤ 10) × (1 ≤ tankers) × (tankers ≤ 6) },
}

impl Collection {
    // Refuses all but 1 to 10 farms and 1 to 6 tankers.
    pub fn new(farms: u8, tankers: u8) -> Result<Collection, ModelFault>
        ensures { result_map_both {U = ℕ × ℕ} (λ m. (m.farms, m.tankers)) (λ e. e) result ≡ (if allowed farms tankers then Ok (farms, tankers) else Err Limits) }
    {
        if farms < 1 || farms > 10 || tankers < 1 || tankers > 6 {
            return Err(ModelFault::Limits);
        }
        Ok(Collection { farms, tankers })
    }

    pub fn farms(&self) -> u8
        ensures { result ≡ self.now.farms }
    {
        self.farms
    }

    pub fn tankers(&self) -> u8
        ensures { result ≡ self.now.tankers }
    {
        self.tankers
    }
}
