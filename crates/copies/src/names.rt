// The table of names: which cell each variant has at each place, and who shares it.
ghost use Rattle.std.specs.Prelude.{◌≡◌, ℕ, not, ◌&&◌, ◌+◌, ◌*◌, ◌/◌, ◌<◌, ◌≤◌, length, ◌==◌, true, nat_lt, if◌then◌else◌, slice_index_or};
ghost use Rattle.group.specs.Groups.{has};
ghost use Rattle.copies.specs.Rows.{Shared, cell_at, group_at, is_whole_at, parted_places};
ghost use Rattle.copies.specs.Sharing.{copy_cells, move_cell};
ghost use Rattle.copies.specs.Starts.{starting_cell};

use group::{Group, VARIANTS};
use std::array;

// The most places that a model has.
pub(crate) const PLACES: u8 = 32;

// How many cells there are.
pub(crate) const CELLS: u8 = 128;

// A row of 16 cells for each place, so that those of all variants at a place lie side by side. No variant and no place beyond them has a name of its own.
// In one array, since nothing is known of the lengths of arrays in an array.
#[derive(Clone, Copy)]
pub(crate) struct Names {
    rows: [u8; 512],
    // beside each cell the group of all that have it at that place
    sharing: [Group; 512],
    // how many places are not whole
    parted: u32,
    ghost inside: { (i : ℕ) → slice_index_or rows i 0 < 128 },
    ghost shared: { (v p : ℕ) → v < 16 → p < 32 → Shared rows sharing v p },
    ghost counted: { parted ≡ parted_places sharing },
}

// Where the name of v at the place p stands.
fn index(v: u8, p: u8) -> usize
    ensures { result ≡ p * 16 + v }
{
    usize::from(p) * usize::from(VARIANTS) + usize::from(v)
}

// The cell p for the place p, row by row.
fn starting_rows() -> [u8; 512]
    ensures cells { (i : ℕ) → i < 512 → slice_index_or result i 0 ≡ i / 16 }
    ensures len { length result ≡ 512 }
{
    array::from_fn(|i| (i / usize::from(VARIANTS)) as u8)
}

// All sixteen variants.
fn everyone() -> Group
    ensures { (w : ℕ) → has result w ≡ nat_lt w 16 }
{
    let mut all = Group::empty();
    for v in 0..VARIANTS {
        all = all.with(v);
    }
    all
}

// v has the cell c at the place p from now on.
fn set(rows: &mut [u8; 512], v: u8, p: u8, c: u8)
    requires variant { v < 16 }
    requires place { p < 32 }
    requires cell { c < 128 }
    requires inside { (i : ℕ) → slice_index_or rows.old i 0 < 128 }
    ensures cells { (w q : ℕ) → cell_at rows.new w q ≡ (if w == v && q == p then c else cell_at rows.old w q) }
    ensures inside { (i : ℕ) → slice_index_or rows.new i 0 < 128 }
{
    rows[index(v, p)] = c;
}

// The group has the cell c at the place p from now on.
fn fill_row(rows: &mut [u8; 512], group: Group, p: u8, c: u8)
    requires place { p < 32 }
    requires cell { c < 128 }
    requires inside { (i : ℕ) → slice_index_or rows.old i 0 < 128 }
    ensures cells { cell_at rows.new ≡ move_cell (cell_at rows.old) group p c }
    ensures inside { (i : ℕ) → slice_index_or rows.new i 0 < 128 }
{
    let mut rest = group;
    while let Some(v) = rest.least() {
        set(rows, v, p, c);
        rest = rest.without(v);
    }
}

// The group beside a variant's cell once some have gone there: all that are there, if the variant is one of them, else those that have not gone.
fn regrouped(old: Group, gone: Group, there: Group, v: u8) -> Group
    ensures { (w : ℕ) → has result w ≡ (if has there v then has there w else has old w && not (has gone w)) }
{
    if there.has(v) {
        there
    } else {
        old.difference(gone)
    }
}

// At the place p those that are there share with one another from now on, and the others with none of those that have gone there.
fn share_row(sharing: &mut [Group; 512], gone: Group, there: Group, p: u8)
    requires { p < 32 }
    ensures { (v q w : ℕ) → v < 16 → q < 32 → has (group_at sharing.new v q) w ≡ (if q == p then (if has there v then has there w else has (group_at sharing.old v q) w && not (has gone w)) else has (group_at sharing.old v q) w) }
{
    for v in 0..VARIANTS {
        let i = index(v, p);
        sharing[i] = regrouped(sharing[i], gone, there, v);
    }
}

// Whether all sixteen share the place p, as they do past the last place.
fn all_share(sharing: &[Group; 512], p: u8) -> bool
    ensures { result ≡ is_whole_at sharing.now p }
{
    p >= PLACES || sharing[index(0, p)].size() == u32::from(VARIANTS)
}

impl Names {
    ghost use Rattle.copies.specs.Names.{cell_in};

    // Every variant has the cell p at the place p.
    pub(crate) fn new() -> Names
        ensures { cell_in result ≡ starting_cell }
    {
        Names {
            rows: starting_rows(),
            sharing: [everyone(); 512],
            parted: 0,
        }
    }

    // The cell of v at the place p.
    pub(crate) fn cell(&self, v: u8, p: u8) -> u8
        ensures value { result ≡ cell_in self.now v p }
        ensures inside { result < 128 }
    {
        if v < VARIANTS && p < PLACES {
            self.rows[index(v, p)]
        } else {
            0
        }
    }

    // Those that have the cell c at the place p.
    fn holders(&self, p: u8, c: u8) -> Group
        requires { p < 32 }
        ensures { (w : ℕ) → has result w ≡ (nat_lt w 16 && cell_in self.now w p == c) }
    {
        for v in 0..VARIANTS {
            if self.cell(v, p) == c {
                return self.sharing[index(v, p)];
            }
        }
        Group::empty()
    }

    // Those that have v's cell at the place p.
    pub(crate) fn sharers(&self, v: u8, p: u8) -> Group
        ensures { (w : ℕ) → has result w ≡ (nat_lt w 16 && cell_in self.now w p == cell_in self.now v p) }
    {
        if p >= PLACES {
            everyone()
        } else if v < VARIANTS {
            self.sharing[index(v, p)]
        } else {
            self.holders(p, 0)
        }
    }

    // Where it tells so, all variants have one cell at the place p.
    pub(crate) fn is_whole(&self, p: u8) -> bool
        ensures whole { result ≡ true → (v w : ℕ) → v < 16 → w < 16 → cell_in self.now v p ≡ cell_in self.now w p }
        ensures told { result ≡ is_whole_at self.now.sharing p }
    {
        all_share(&self.sharing, p)
    }

    // At how many places it does not tell so.
    pub(crate) fn parted_places(&self) -> u32
        ensures value { result ≡ parted_places self.now.sharing }
        ensures few { result ≤ 32 }
    {
        self.parted
    }

    // Where it tells so, the whole group has the cell c at the place p.
    fn is_there(&self, group: Group, p: u8, c: u8) -> bool
        ensures { result ≡ true → (w : ℕ) → has group w ≡ true → cell_in self.now w p ≡ c }
    {
        match group.least() {
            Some(v) => self.cell(v, p) == c && group.difference(self.sharers(v, p)).is_empty(),
            None => true,
        }
    }

    // The child has its parent's cells.
    pub(crate) fn copy_row(&mut self, parent: u8, child: u8)
        ensures { cell_in self.new ≡ (if nat_lt parent 16 && nat_lt child 16 then copy_cells (cell_in self.old) parent child else cell_in self.old) }
    {
        if parent < VARIANTS && child < VARIANTS {
            for p in 0..PLACES {
                self.move_group(Group::single(child), p, self.cell(parent, p));
            }
        }
    }

    // The group has the cell c at the place p from now on.
    pub(crate) fn move_group(&mut self, group: Group, p: u8, c: u8)
        requires place { p < 32 }
        requires cell { c < 128 }
        ensures { cell_in self.new ≡ move_cell (cell_in self.old) group p c }
    {
        if self.is_there(group, p, c) {
            return;
        }
        let there = self.holders(p, c).union(group);
        let was_whole = all_share(&self.sharing, p);
        fill_row(&mut self.rows, group, p, c);
        share_row(&mut self.sharing, group, there, p);
        let is_whole = all_share(&self.sharing, p);
        self.parted = self.parted + u32::from(was_whole) - u32::from(is_whole);
    }
}
