// Cells. `mats` is where the matrices stand.
ghost use Rattle.std.specs.Prelude.{◌≡◌, ℕ, ◌+◌, ◌*◌, ◌≤◌, length};
ghost use Rattle.design.specs.Limits.{trailer_bytes};
ghost use Rattle.design.specs.Tree.{BoolExpr};
ghost use Rattle.design.specs.DesignFile.{rank, fields, ordered, c_past, c_guard, guard, action, cell_at};
ghost use Rattle.design.specs.Check.{names_of};
ghost use Rattle.design.specs.Answers.{walked};
ghost use Rattle.design.specs.Answer.{told};

use super::bytes::{wide, word};
use super::item::{Items, fill_length};
use super::kind::CellKind;
use super::limits::MAX_NEST;
use super::refusal::Refused;
use super::shape::Shape;
use super::source::Source;

// A cell's place, as a number that ascends.
pub fn rank_at(file: &[u8], at: usize) -> usize
    requires { at + 8 ≤ length file.now }
    ensures { result ≡ rank file.now at }
{
    65536 * wide(file[at]) + 256 * wide(file[at + 1]) + wide(file[at + 2])
}

// Whether the fields of the cell at `at` are right.
pub fn fields_ok(file: &[u8], shape: Shape, mats: usize, at: usize) -> bool
    requires { (at + 8 ≤ length file.now) × (mats + 2 * shape.matrices ≤ length file.now) }
    ensures { result ≡ fields file.now mats shape.matrices at }
{
    let m = file[at] as usize;
    if shape.matrices <= m {
        return false;
    }
    let statuses = file[mats + 2 * m];
    let status = file[at + 1];
    if statuses <= status {
        return false;
    }
    let events = file[mats + 2 * m + 1];
    let event = file[at + 2];
    if events <= event {
        return false;
    }
    let kind = file[at + 3];
    let target = file[at + 4];
    if kind == CellKind::Normal as u8 {
        return target < statuses;
    }
    if kind != CellKind::Invalid as u8 {
        return false;
    }
    if target != 0 {
        return false;
    }
    let guard = file[at + 5];
    if guard != 0 {
        return false;
    }
    let action = word(file, at + 6);
    action == 0
}

// Whether the cell at `at` may follow the one at `before`; the first cell is given as the one before itself.
pub fn in_order(file: &[u8], before: usize, at: usize) -> bool
    requires { (at + 8 ≤ length file.now) × (before + 8 ≤ length file.now) }
    ensures { result ≡ ordered file.now before at }
{
    if before == at {
        return true;
    }
    let a = rank_at(file, before);
    let b = rank_at(file, at);
    if a < b {
        return true;
    }
    if a != b {
        return false;
    }
    let j = file[before + 3];
    if j != CellKind::Normal as u8 {
        return false;
    }
    let k = file[at + 3];
    k == CellKind::Normal as u8
}

impl<'a> Items<'a> {
    // The guard, which may be empty.
    pub fn check_guard(self, at: usize) -> Result<usize, Refused>
        requires { c_past self.file.now at ≤ length self.file.now }
        ensures { (end : ℕ) → told result ≡ walked (guard self.entry.file.now end (names_of self.entry.file.now self.entry.shape) at (c_guard self.entry.file.now at)) }
    {
        let n = self.file[at + 5];
        let middle = at + 8 + (n as usize);
        if n == 0 {
            return Ok(middle);
        }
        self.check_filling(at + 8, middle, false, Refused::Expression(at))
    }

    // The action.
    pub fn check_action(self, at: usize) -> Result<usize, Refused>
        requires { c_past self.file.now at ≤ length self.file.now }
        ensures { (end : ℕ) → told result ≡ walked (action self.entry.file.now end (names_of self.entry.file.now self.entry.shape) at) }
    {
        let middle = at + 8 + wide(self.file[at + 5]);
        let past = middle + word(self.file, at + 6);
        let text = Source {
            text: self.file,
            end: past,
            file: self.file,
            shape: self.shape,
        };
        fill_length(text.check_list(middle, MAX_NEST), past, Refused::Action(at))
    }

    // The cell at `at`, after the one at `before`.
    pub fn check_cell(self, mats: usize, before: usize, at: usize) -> Result<usize, Refused>
        requires { (at ≤ self.end) × (before ≤ self.end) × (mats + 2 * self.shape.matrices ≤ length self.file.now) }
        ensures { (f : ℕ → ℕ → BoolExpr) → told result ≡ walked (cell_at self.entry.file.now self.entry.end (names_of self.entry.file.now self.entry.shape) mats f before at) }
    {
        let past = at + 8 + wide(self.file[at + 5]) + word(self.file, at + 6);
        if self.end < past {
            return Err(Refused::Offset(at));
        }
        if !fields_ok(self.file, self.shape, mats, at) {
            return Err(Refused::Cell(at));
        }
        if !in_order(self.file, before, at) {
            return Err(Refused::Cell(at));
        }
        let kind = self.file[at + 3];
        if kind != CellKind::Normal as u8 {
            return Ok(past);
        }
        self.check_guard(at)?;
        self.check_action(at)
    }
}
