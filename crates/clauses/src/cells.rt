// The gates of cells, over the bytes of an accepted file. `p` is where a cell stands.
ghost use Rattle.std.specs.Prelude.{◌≡◌, ℕ, ◌<◌, false, List};
ghost use Rattle.design.specs.Tree.{Design, cell};
ghost use Rattle.design.specs.DesignFile.{c_past, events as event_count};
ghost use Rattle.design.specs.Check.{matrices_offset, event_in};
ghost use Rattle.design.specs.Sections.{Parts, CellFields, NormalCell};
ghost use Rattle.clauses.specs.Cost.{bool_cost, mover_cost};
ghost use Rattle.clauses.specs.FrameSizes.{HasGates, FewGates, CellHere, PlaceCounted, CellCounted, entries_cost};
ghost use Rattle.clauses.specs.Ready.{Ready};
ghost use Rattle.clauses.specs.Limits.{text_gates, most_gates};

use super::cost::{GatesAt, join, no_gates, size_bool, size_list};
use super::tables::Tables;
use design::bytes::{wide, word};
use design::index::{CELLS, CELLS_AT, trailer_word};
use design::kind::CellKind;
use design::limits::{EVENT_ROW, MAX_NEST};
use design::shape::Shape;

// The guard of a normal cell, which may be empty.
pub fn size_guard(file: &[u8], shape: Shape, p: usize) -> GatesAt
    requires { ((table : List ℕ) × Ready file.now table shape) × NormalCell file.now p }
    ensures { FewGates most_gates result × ((x : NormalCell file.now p) → HasGates result (bool_cost false x.cell.guard)) }
{
    let n = wide(file[p + 5]);
    if n == 0 {
        return no_gates(p);
    }
    size_bool(file, p + 8, p + 8 + n, shape, false)
}

impl<'a> Tables<'a> {
    // Event e of matrix m.
    pub fn size_event(self, m: usize, e: usize) -> GatesAt
        requires { (m < self.shape.matrices) × (e < event_count self.file.now (matrices_offset self.file.now) m) }
        ensures { FewGates text_gates result × ((d : Design) (parts : Parts self.entry.file.now d) → HasGates result (bool_cost false (event_in parts.rows m e))) }
    {
        let at = self.events[EVENT_ROW * m + e] as usize;
        let past = at + 1 + wide(self.file[at]);
        size_bool(self.file, at + 1, past, self.shape, false)
    }

    // Status and event of a cell: equal, the event, and an and.
    pub fn size_place(self, p: usize) -> GatesAt
        requires { CellFields self.file.now p }
        ensures { FewGates most_gates result × PlaceCounted self.entry.file.now p result }
    {
        let m = wide(self.file[p]);
        let e = wide(self.file[p + 2]);
        let x = self.size_event(m, e);
        GatesAt {
            ands: x.ands + 17,
            wides: x.wides + 16,
            next: x.next,
        }
    }

    // The mover of a normal cell: enable, the action, and a mux for each of the state's bits.
    pub fn size_normal(self, p: usize) -> GatesAt
        requires { NormalCell self.file.now p }
        ensures { (x : NormalCell self.entry.file.now p) → HasGates result (mover_cost self.entry.shape.bits (cell x.cell)) }
    {
        let event = self.size_place(p);
        let guard = size_guard(self.file, self.shape, p);
        let middle = p + 8 + wide(self.file[p + 5]);
        let past = middle + word(self.file, p + 6);
        let action = size_list(self.file, middle, past, self.shape, MAX_NEST);
        join(join(event, guard, 1, 0), action, 0, self.shape.bits as u64)
    }

    // The cell at `p`: its gates if it is of the kind that counts, and the position past it.
    pub fn size_cell(self, invalid: bool, p: usize) -> GatesAt
        requires { CellHere self.file.now p }
        ensures { (result.next ≡ c_past self.entry.file.now p) × CellCounted self.entry.file.now self.entry.shape.bits invalid p result }
    {
        let none = no_gates(p + 8 + wide(self.file[p + 5]) + word(self.file, p + 6));
        if self.file[p + 3] == CellKind::Normal as u8 {
            if invalid {
                return none;
            }
            return join(self.size_normal(p), none, 0, 0);
        }
        if invalid {
            join(self.size_place(p), none, 1, 0)
        } else {
            none
        }
    }

    // All normal cells, or all invalid ones.
    pub fn size_cells(self, invalid: bool) -> GatesAt
        ensures { FewGates most_gates result × ((d : Design) (parts : Parts self.entry.file.now d) → HasGates result (entries_cost self.entry.shape.bits invalid parts.entries)) }
    {
        let mut sum = no_gates(trailer_word(self.file, CELLS_AT));
        for _ in 0..trailer_word(self.file, CELLS) {
            let x = self.size_cell(invalid, sum.next);
            sum = join(sum, x, 0, 0);
        }
        sum
    }
}
