// Whether there are copies enough for what a step or an order leaves.
ghost use Rattle.std.specs.Prelude.{◌≡◌, ℕ, ◌*◌, ◌≤◌, true, not, List, map, nat_le, nat_lt};
ghost use Rattle.group.specs.Groups.{count, has};
ghost use Rattle.group.specs.declared.Group.{Group};
ghost use Rattle.copies.specs.Cells.{cell_of};
ghost use Rattle.copies.specs.Sharing.{groups, shares_decided, shares_stepped};
ghost use Rattle.follows.specs.Steps.{group_of};

use crate::Study;
use calendar::Calendar;
use model::Model;

// The most copies in use.
const COPIES: u32 = 128;

impl<C: Calendar, M: Model> Study<C, M> {
    // Whether there would be enough if no two live variants shared a place, so that no groups need be counted.
    fn has_copies_for_all(&self) -> bool
        ensures { result ≡ nat_le ((M.meaning self.now.model).places * count (has self.now.register.live) 16) 128 }
    {
        u32::from(self.model.places()) * self.register.live.size() <= COPIES
    }

    // Whether there are enough for all groups that there may be once something has happened at the place, so that none need be counted.
    fn has_copies_beside(&self, place: u8) -> bool
        ensures stepped { result ≡ true → (heads : List Group) → groups (M.meaning self.now.model).places self.now.register.live (shares_stepped (cell_of self.now.copies) heads place) ≤ 128 }
        ensures decided { result ≡ true → (v : ℕ) → groups (M.meaning self.now.model).places self.now.register.live (shares_decided (cell_of self.now.copies) v place) ≤ 128 }
    {
        self.has_copies_for_all()
            || self
                .copies
                .most_groups(self.register.live, self.model.places(), place)
                <= COPIES
    }

    // Once the messages at hand have run at the receiver.
    pub(crate) fn fits_stepped(&self, receiver: u8) -> bool
        ensures { result ≡ not (nat_lt 128 (groups (M.meaning self.now.model).places self.now.register.live (shares_stepped (cell_of self.now.copies) (map group_of self.now.heads.items) receiver))) }
    {
        self.has_copies_beside(receiver)
            || self.copies.groups_stepped(
                self.register.live,
                self.model.places(),
                &self.heads,
                receiver,
            ) <= COPIES
    }

    // Once v is given an order at a place.
    pub(crate) fn fits_decided(&self, v: u8, place: u8) -> bool
        ensures { result ≡ not (nat_lt 128 (groups (M.meaning self.now.model).places self.now.register.live (shares_decided (cell_of self.now.copies) v place))) }
    {
        self.has_copies_beside(place)
            || self
                .copies
                .groups_decided(self.register.live, self.model.places(), v, place)
                <= COPIES
    }
}
