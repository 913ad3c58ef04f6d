// A free cell, and the cell on which a group is to write.
ghost use Rattle.std.specs.Prelude.{◌≡◌, ℕ, ◌<◌, false, ◌==◌, ◌&&◌, ◌||◌, IfSome, slice_index_or};
ghost use Rattle.account.specs.Account.{any_below};
ghost use Rattle.group.specs.Groups.{has};
ghost use Rattle.copies.specs.Cells.{cell_of};
ghost use Rattle.copies.specs.Sharing.{free, target, used};

use crate::names::CELLS;
use crate::store::Copies;
use group::{Group, VARIANTS};

// One for each number of a cell that fits in eight bits.
type Marks = [bool; 256];

impl Copies {
    // Marks the cells that serve some live variant at the place p.
    fn mark(&self, live: Group, p: u8, marks: &mut Marks)
        ensures { (c : ℕ) → c < 256 → slice_index_or marks.new c false ≡ (any_below (λ v. has live v && cell_of self.now v p == c) 16 || slice_index_or marks.old c false) }
    {
        for v in 0..VARIANTS {
            if live.has(v) {
                marks[usize::from(self.cell(v, p))] = true;
            }
        }
    }

    // The cells that serve some live variant at some place.
    fn used(&self, live: Group, places: u8) -> Marks
        ensures { (c : ℕ) → c < 256 → slice_index_or result c false ≡ used places (cell_of self.now) live c }
    {
        let mut marks = [false; 256];
        for p in 0..places {
            self.mark(live, p, &mut marks);
        }
        marks
    }

    // A cell that serves nobody.
    pub fn free(&self, live: Group, places: u8) -> Option<u8>
        ensures value { result ≡ free places (cell_of self.now) live }
        ensures inside { IfSome result (λ c. c < 128) }
    {
        let used = self.used(live, places);
        for c in 0..CELLS {
            if !used[usize::from(c)] {
                return Some(c);
            }
        }
        None
    }

    // Where a group that has v's copy of the place p is to write: there, if nobody else has it, else on a free cell.
    pub fn target(&self, live: Group, group: Group, places: u8, p: u8, v: u8) -> u8
        ensures value { result ≡ target places (cell_of self.now) live group p v }
        ensures inside { result < 128 }
    {
        let own = self.cell(v, p);
        if self.is_crowded(live, group, p, v) {
            self.free(live, places).unwrap_or(own)
        } else {
            own
        }
    }
}
