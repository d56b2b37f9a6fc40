// The sections, item by item.
ghost use Rattle.std.specs.Prelude.{◌≡◌, ℕ, ◌+◌, ◌*◌, ◌≤◌, ◌<◌, length};
ghost use Rattle.design.specs.Limits.{trailer_bytes};
ghost use Rattle.design.specs.Tree.{BoolExpr};
ghost use Rattle.design.specs.DesignFile.{items, variable_at, matrix_at, event_at, events_from, cells_from};
ghost use Rattle.design.specs.Check.{names_of, sections};
ghost use Rattle.design.specs.Answers.{walked, expressions_at, counted, raises, moves, bodied, SmallCounts, VariablesRight, MatricesRight, EventsRight};
ghost use Rattle.design.specs.Answer.{told};

use super::bytes::wide;
use super::item::{Items, check_matrix, check_variable};
use super::kind::{CellKind, Kind};
use super::refusal::Refused;
use super::shape::{Counts, Offsets, shape_of};

// The variables, from byte 0 on, with the number of externals.
pub fn check_variables(file: &[u8], end: usize, nv: usize) -> Result<(usize, usize), Refused>
    requires { (end ≤ length file.now) × (nv < 65536) }
    ensures { told result ≡ counted raises 0 (items (variable_at file.now end) nv 0) }
{
    let mut p = 0;
    let mut externals = 0;
    for _ in 0..nv {
        let n = check_variable(file, end, p)?;
        if file[p] == Kind::External as u8 {
            externals += 1;
        }
        p = n;
    }
    Ok((p, externals))
}

// The matrices.
pub fn check_matrices(file: &[u8], end: usize, nm: usize, at: usize) -> Result<usize, Refused>
    requires { (at ≤ end) × (end ≤ length file.now) }
    ensures { told result ≡ walked (items (matrix_at file.now end) nm at) }
{
    let mut p = at;
    for _ in 0..nm {
        p = check_matrix(file, end, p)?;
    }
    Ok(p)
}

impl<'a> Items<'a> {
    // The events of one matrix.
    pub fn check_matrix_events(self, count: usize, at: usize) -> Result<usize, Refused>
        requires { at ≤ self.end }
        ensures { told result ≡ walked (items (event_at self.entry.file.now self.entry.end (names_of self.entry.file.now self.entry.shape)) count at) }
    {
        let mut p = at;
        for _ in 0..count {
            p = self.check_event(p)?;
        }
        Ok(p)
    }

    // The events, matrix by matrix.
    pub fn check_events(self, mats: usize, at: usize) -> Result<usize, Refused>
        requires { (at ≤ self.end) × (mats + 2 * self.shape.matrices ≤ length self.file.now) }
        ensures { told result ≡ walked (events_from self.entry.file.now self.entry.end (names_of self.entry.file.now self.entry.shape) mats 0 self.entry.shape.matrices at) }
    {
        let mut p = at;
        for m in 0..self.shape.matrices {
            let count = wide(self.file[mats + 2 * m + 1]);
            p = self.check_matrix_events(count, p)?;
        }
        Ok(p)
    }

    // The cells, with the number of normal ones.
    pub fn check_cells(
        self,
        mats: usize,
        count: usize,
        at: usize,
    ) -> Result<(usize, usize), Refused>
        requires { (at ≤ self.end) × (count < 65536) × (mats + 2 * self.shape.matrices ≤ length self.file.now) }
        ensures { (f : ℕ → ℕ → BoolExpr) → told result ≡ counted moves 0 (cells_from self.entry.file.now self.entry.end (names_of self.entry.file.now self.entry.shape) mats f count at at) }
    {
        let mut before = at;
        let mut p = at;
        let mut normals = 0;
        for _ in 0..count {
            let n = self.check_cell(mats, before, p)?;
            if self.file[p + 3] == CellKind::Normal as u8 {
                normals += 1;
            }
            before = p;
            p = n;
        }
        Ok((p, normals))
    }

    // The invariant, and the constraint behind it.
    pub fn check_last(self, offsets: Offsets) -> Result<usize, Refused>
        ensures { told result ≡ walked (expressions_at self.entry.file.now self.entry.end (names_of self.entry.file.now self.entry.shape) offsets offsets.invariant) }
    {
        let p = self.check_invariant(offsets.constraint, offsets.invariant)?;
        self.check_constraint(offsets.constrained, p)
    }
}

// All sections, each at its offset: the position past them, and the number of movers.
pub fn check_sections(
    file: &[u8],
    end: usize,
    counts: Counts,
    offsets: Offsets,
) -> Result<(usize, usize), Refused>
    requires { (end + trailer_bytes ≤ length file.now) × SmallCounts counts }
    ensures { told result ≡ bodied (sections file.now end counts offsets 0) }
{
    let (matrices, externals) = check_variables(file, end, counts.variables)?;
    if offsets.matrices != matrices {
        return Err(Refused::Offset(matrices));
    }
    let events = check_matrices(file, end, counts.matrices, offsets.matrices)?;
    if offsets.events != events {
        return Err(Refused::Offset(events));
    }
    let shape = shape_of(counts);
    let items = Items { file, end, shape };
    let cells = items.check_events(offsets.matrices, offsets.events)?;
    if offsets.cells != cells {
        return Err(Refused::Offset(cells));
    }
    let (invariant, normals) = items.check_cells(offsets.matrices, counts.cells, offsets.cells)?;
    if offsets.invariant != invariant {
        return Err(Refused::Offset(invariant));
    }
    let past = items.check_last(offsets)?;
    Ok((past, normals + externals))
}
