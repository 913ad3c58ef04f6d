// The copies of places: the names of cells, and what the cells hold.
ghost use Rattle.std.specs.Prelude.{◌≡◌, ℕ, ◌<◌, ◌&&◌, IfOk, nat_lt, if◌then◌else◌, slice_index_or, vec_len};
ghost use Rattle.day.specs.Blank.{blank_place};
ghost use Rattle.day.specs.Day.{starting_place};
ghost use Rattle.copies.specs.Sharing.{copy_cells, move_cell, move_content};
ghost use Rattle.copies.specs.Starts.{starting_cell, starting_content};

use crate::names::{CELLS, Names, PLACES};
use day::Place;
use group::Group;
use model::Model;
use std::alloc::{AllocError, Global};

// 128 cells, each of which holds a place of some variants. Nothing is allocated after `new`.
#[derive(Drop)]
pub struct Copies {
    pub(crate) names: Names,
    pub(crate) cells: Vec<Place>,
    ghost enough: { vec_len cells ≡ 128 },
}

impl Copies {
    ghost use Rattle.copies.specs.Cells.{cell_of, content_of, zero_place};

    // Every variant has the cell p at the place p, and each cell holds a place that does nothing yet.
    pub fn new(memory: Global) -> Result<Copies, AllocError>
        ensures cells { IfOk result (λ copies. cell_of copies ≡ starting_cell) }
        ensures content { IfOk result (λ copies. (c : ℕ) → c < 128 → content_of copies c ≡ zero_place) }
    {
        let empty = Place {
            words: [0; 8],
            order: 0,
            sent: 0,
        };
        Ok(Copies {
            names: Names::new(),
            cells: vec![in memory; empty; 128]?,
        })
    }

    // The cell of v at the place p. A variant above 15 and a place above 31 have the cell 0.
    pub fn cell(&self, v: u8, p: u8) -> u8
        ensures value { result ≡ cell_of self.now v p }
        ensures inside { result < 128 }
    {
        self.names.cell(v, p)
    }

    // What v has at the place p.
    pub fn place(&self, v: u8, p: u8) -> Place
        ensures { result ≡ content_of self.now (cell_of self.now v p) }
    {
        self.cells[usize::from(self.cell(v, p))]
    }

    // The child has its parent's copies.
    pub fn branch(&mut self, parent: u8, child: u8)
        ensures cells { cell_of self.new ≡ (if nat_lt parent 16 && nat_lt child 16 then copy_cells (cell_of self.old) parent child else cell_of self.old) }
        ensures content { content_of self.new ≡ content_of self.old }
    {
        self.names.copy_row(parent, child);
    }

    // The group goes over to the cell c at the place p, and from now on the cell holds what is given. A place above 31 or a cell above 127 changes nothing.
    pub fn put(&mut self, group: Group, p: u8, c: u8, place: Place)
        ensures cells { cell_of self.new ≡ (if nat_lt p 32 && nat_lt c 128 then move_cell (cell_of self.old) group p c else cell_of self.old) }
        ensures content { content_of self.new ≡ (if nat_lt p 32 && nat_lt c 128 then move_content (content_of self.old) c place else content_of self.old) }
    {
        if p < PLACES && c < CELLS {
            self.names.move_group(group, p, c);
            self.cells[usize::from(c)] = place;
        }
    }

    // As a study begins: every variant has the cell p at the place p, and each cell holds what the place of its number begins with.
    pub fn begin<M: Model>(&mut self, model: &M)
        ensures cells { cell_of self.new ≡ starting_cell }
        ensures content { content_of self.new ≡ starting_content (M.meaning model.now) }
    {
        self.names = Names::new();
        fill(&mut self.cells, model);
    }
}

// Each cell holds what the place of its number begins with.
fn fill<M: Model>(cells: &mut Vec<Place>, model: &M)
    requires { vec_len cells.old ≡ 128 }
    ensures len { vec_len cells.new ≡ 128 }
    ensures content { (c : ℕ) → c < 128 → slice_index_or cells.new.items c blank_place ≡ starting_place (M.meaning model.now) c }
{
    for (c, place) in cells.iter_mut().enumerate() {
        *place = Place {
            words: model.start(c as u8),
            order: 0,
            sent: 0,
        };
    }
}
