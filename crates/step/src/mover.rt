// Movers: a normal cell or an external, enabled or idle. `p` is where a cell stands.
ghost use Rattle.std.specs.Prelude.{◌≡◌, ℕ, ◌+◌, ◌<◌, List, ◌++◌, length, drop};
ghost use Rattle.design.specs.Tree.{Design, cell, raise};
ghost use Rattle.design.specs.DesignFile.{c_matrix, c_status, c_event, events as event_count};
ghost use Rattle.design.specs.Check.{matrices_offset, check, accepted, event_in};
ghost use Rattle.design.specs.State.{Layout, layout_of, slot_count};
ghost use Rattle.design.specs.Sections.{Parts, CellFields, NormalCell};
ghost use Rattle.step.specs.Evaluation.{eval_bool};
ghost use Rattle.step.specs.OneStep.{status_stands, status_and_event, effect, move as moves, step};
ghost use Rattle.step.specs.Ready.{ReadyState, kept_in, tested_of, tested_by};

use super::evaluate::eval_bool;
use super::execute::run_list;
use super::machine::{Machine, Movers};
use design::bytes::{wide, word};
use design::index::external;
use design::limits::{EVENT_ROW, MAX_NEST};
use design::shape::{Shape, slot_count};
use design::source::Source;

// What came of testing a mover: whether its event was read, whether its guard was (a cell without one counts, too), and whether the choice was idle.
#[derive(Clone, Copy)]
pub struct Tested {
    pub event: bool,
    pub guard: bool,
    pub idle: bool,
}

// Whether the cell's matrix has its status.
pub fn status_stands(file: &[u8], shape: Shape, p: usize, slots: &[u16]) -> bool
    requires { ((table : List ℕ) × ReadyState file.now table shape slots.now) × CellFields file.now p }
    ensures { result ≡ status_stands (layout_of shape) slots.now (c_matrix file.now p) (c_status file.now p) }
{
    let m = wide(file[p]);
    let status = wide(file[p + 1]);
    let current = slots[shape.variables + m] as usize;
    current == status
}

// Whether the guard of a normal cell is true.
pub fn guard_true(file: &[u8], shape: Shape, p: usize, slots: &[u16]) -> bool
    requires { ((table : List ℕ) × ReadyState file.now table shape slots.now) × NormalCell file.now p }
    ensures { (x : NormalCell file.now p) → result ≡ eval_bool (layout_of shape) slots.now x.cell.guard }
{
    let n = wide(file[p + 5]);
    n == 0 || eval_bool(file, p + 8, p + 8 + n, shape, slots).value
}

// An enabled cell moves: its statements run, and the status becomes the target.
pub fn act_cell(file: &[u8], shape: Shape, p: usize, slots: &mut [u16])
    requires { ((table : List ℕ) × ReadyState file.now table shape slots.old) × NormalCell file.now p }
    ensures { (x : NormalCell file.now p) → slots.new ≡ effect (layout_of shape) slots.old (cell x.cell) }
{
    let middle = p + 8 + wide(file[p + 5]);
    let past = middle + word(file, p + 6);
    let source = Source {
        text: file,
        end: past,
        file,
        shape,
    };
    run_list(&source, middle, MAX_NEST, slots);
    let m = wide(file[p]);
    slots[shape.variables + m] = u16::from(file[p + 4]);
}

// An external moves: it is enabled when false and becomes true. It has no event and no guard.
pub fn move_external(v: usize, slots: &mut [u16]) -> Tested
    requires { v < length slots.old }
    ensures { (l : Layout) → (slots.new ≡ moves l slots.old (raise v)) × (result ≡ tested_of l slots.old (raise v)) }
{
    let enabled = slots[v] == 0;
    if enabled {
        slots[v] = 1;
    }
    Tested {
        event: false,
        guard: false,
        idle: !enabled,
    }
}

// The second of two states of n slots is copied over the first, if it is to be kept.
pub fn keep_state(pair: &mut [u16], n: usize, keep: bool)
    requires { length pair.old ≡ n + n }
    ensures { pair.new ≡ kept_in keep n pair.old ++ drop n pair.old }
{
    if keep {
        // Kept: with `copy_from_slice` between two parts of a slice the archive would need `memmove` of its host.
        for i in 0..n {
            pair[i] = pair[n + i];
        }
    }
}

impl<'a> Machine<'a> {
    // Whether event e of matrix m is true.
    pub fn event_true(self, m: usize, e: usize, slots: &[u16]) -> bool
        requires { (length slots.now ≡ slot_count self.shape) × (m < self.shape.matrices) × (e < event_count self.file.now (matrices_offset self.file.now) m) }
        ensures { (d : Design) (parts : Parts self.entry.file.now d) → result ≡ eval_bool (layout_of self.entry.shape) slots.now (event_in parts.rows m e) }
    {
        let at = self.events[EVENT_ROW * m + e] as usize;
        let past = at + 1 + wide(self.file[at]);
        let x = eval_bool(self.file, at + 1, past, self.shape, slots);
        x.value
    }

    // Whether the cell's event is true.
    pub fn cell_event(self, p: usize, slots: &[u16]) -> bool
        requires { (length slots.now ≡ slot_count self.shape) × CellFields self.file.now p }
        ensures { (d : Design) (parts : Parts self.entry.file.now d) → result
            ≡ eval_bool (layout_of self.entry.shape) slots.now (event_in parts.rows (c_matrix self.entry.file.now p) (c_event self.entry.file.now p)) }
    {
        let m = wide(self.file[p]);
        let e = wide(self.file[p + 2]);
        self.event_true(m, e, slots)
    }

    // Whether its matrix has the cell's status and its event is true; the event is read only where the status stands.
    pub fn status_and_event(self, p: usize, slots: &[u16]) -> bool
        requires { (length slots.now ≡ slot_count self.shape) × CellFields self.file.now p }
        ensures { (d : Design) (parts : Parts self.entry.file.now d) → result
            ≡ status_and_event (layout_of self.entry.shape) slots.now (c_matrix self.entry.file.now p) (c_status self.entry.file.now p)
            (event_in parts.rows (c_matrix self.entry.file.now p) (c_event self.entry.file.now p)) }
    {
        status_stands(self.file, self.shape, p, slots) && self.cell_event(p, slots)
    }

    // A normal cell moves, if it is enabled: its status is compared first, then its event, then its guard, and it leaves off at the first that fails.
    pub fn move_cell(self, p: usize, slots: &mut [u16]) -> Tested
        requires { (length slots.old ≡ slot_count self.shape) × NormalCell self.file.now p }
        ensures { (x : NormalCell self.entry.file.now p) → (slots.new ≡ moves (layout_of self.entry.shape) slots.old (cell x.cell)) × (result
            ≡ tested_of (layout_of self.entry.shape) slots.old (cell x.cell)) }
    {
        let event = status_stands(self.file, self.shape, p, slots);
        let guard = event && self.cell_event(p, slots);
        let enabled = guard && guard_true(self.file, self.shape, p, slots);
        if enabled {
            act_cell(self.file, self.shape, p, slots);
        }
        Tested {
            event,
            guard,
            idle: !enabled,
        }
    }
}

impl<'a> Movers<'a> {
    // The mover that the choice names moves, if it is enabled.
    pub fn move_chosen(self, choice: usize, slots: &mut [u16]) -> Tested
        requires { (length slots.old ≡ slot_count self.machine.shape) × (choice < self.machine.shape.normals + self.machine.shape.externals) }
        ensures { (d : Design) → check self.entry.machine.file.now ≡ accepted d → (slots.new ≡ step d slots.old choice) × (result ≡ tested_by d slots.old choice) }
    {
        let shape = self.machine.shape;
        if choice < shape.normals {
            let p = self.cells[choice] as usize;
            return self.machine.move_cell(p, slots);
        }
        let v = external(self.machine.file, shape.variables, choice - shape.normals);
        move_external(v, slots)
    }

    // The second state of a pair becomes the first, if it is to be kept, and the mover that the choice names moves in the second, if it is enabled.
    pub fn step_pair(self, choice: usize, keep: bool, pair: &mut [u16]) -> Tested
        requires { (length pair.old ≡ slot_count self.machine.shape + slot_count self.machine.shape) × (choice < self.machine.shape.normals + self.machine.shape.externals) }
        ensures { (d : Design) → check self.entry.machine.file.now ≡ accepted d
            → (pair.new ≡ kept_in keep (slot_count self.entry.machine.shape) pair.old ++ step d (drop (slot_count self.entry.machine.shape) pair.old) choice)
            × (result ≡ tested_by d (drop (slot_count self.entry.machine.shape) pair.old) choice) }
    {
        let n = slot_count(self.machine.shape);
        keep_state(pair, n, keep);
        self.move_chosen(choice, &mut pair[n..])
    }
}
