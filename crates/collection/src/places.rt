// Which places are farms, and which are tankers.
ghost use Rattle.std.specs.Prelude.{◌≡◌};
ghost use Rattle.collection.specs.Places.{is_farm_place, is_tanker_place};

use super::Collection;

impl Collection {
    pub(super) fn is_farm(&self, place: u32) -> bool
        ensures { result ≡ is_farm_place self.now.farms place }
    {
        1 <= place && place <= u32::from(self.farms)
    }

    pub fn is_tanker(&self, place: u8) -> bool
        ensures { result ≡ is_tanker_place self.now.farms self.now.tankers place }
    {
        self.farms < place && place <= self.farms + self.tankers
    }
}
