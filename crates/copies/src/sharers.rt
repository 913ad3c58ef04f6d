// Who shares a copy with whom.
ghost use Rattle.std.specs.Prelude.{◌≡◌, true};
ghost use Rattle.copies.specs.Cells.{cell_of};
ghost use Rattle.copies.specs.Sharing.{crowded, sharers, shares};
ghost use Rattle.copies.specs.Tests.{AllShare};

use crate::store::Copies;
use group::Group;

impl Copies {
    // Where it tells so, all variants share the place p.
    pub(crate) fn is_whole(&self, p: u8) -> bool
        ensures { result ≡ true → AllShare (shares (cell_of self.now) p) }
    {
        self.names.is_whole(p)
    }

    // Whether v and w share their copy of the place p.
    pub fn shares(&self, v: u8, w: u8, p: u8) -> bool
        ensures { result ≡ shares (cell_of self.now) p v w }
    {
        self.cell(v, p) == self.cell(w, p)
    }

    // Those among a group that have v's copy of the place p.
    pub fn sharers(&self, among: Group, p: u8, v: u8) -> Group
        ensures { result ≡ sharers (cell_of self.now) among p v }
    {
        among.intersection(self.names.sharers(v, p))
    }

    // Whether a live variant outside the group has v's copy of the place p.
    pub fn is_crowded(&self, live: Group, group: Group, p: u8, v: u8) -> bool
        ensures { result ≡ crowded (cell_of self.now) live group p v }
    {
        !self.sharers(live.difference(group), p, v).is_empty()
    }
}
