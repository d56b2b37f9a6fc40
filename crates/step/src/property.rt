// The properties.
ghost use Rattle.std.specs.Prelude.{◌≡◌, ℕ, ◌+◌, ◌≤◌, true, List, length, drop, nat_lt};
ghost use Rattle.design.specs.Tree.{Design};
ghost use Rattle.design.specs.Limits.{max_variables, max_matrices};
ghost use Rattle.design.specs.State.{layout_of, slot_count};
ghost use Rattle.design.specs.Sections.{Parts};
ghost use Rattle.step.specs.Evaluation.{eval_bool};
ghost use Rattle.step.specs.Piece.{piece_right, expression_of};
ghost use Rattle.step.specs.Property.{property_of};
ghost use Rattle.step.specs.Limits.{last_state_property};
ghost use Rattle.step.specs.OneStep.{marked, no_invalid, true_at, holds};
ghost use Rattle.step.specs.Ready.{ReadyState, ReadyPair, before_in};

use super::evaluate::eval_bool;
use super::interface::give_mark;
use super::limits::LAST_STATE_PROPERTY;
use super::machine::Machine;
use super::piece::expression;
use design::bytes::{wide, word};
use design::index::{CELLS, CELLS_AT, constraint, has_constraint, trailer_word};
use design::kind::CellKind;
use design::shape::{Shape, slot_count};

// Whether property 0's expression is true: the piece's, or the file's invariant.
pub fn expression_true<'a>(file: &'a [u8], piece: &'a [u8], shape: Shape, slots: &[u16]) -> bool
    requires { ((table : List ℕ) × ReadyState file.now table shape slots.now) × (piece_right file.now piece.now 0 ≡ true) }
    ensures { (d : Design) (parts : Parts file.now d) → result ≡ eval_bool (layout_of shape) slots.now (expression_of file.now piece.now d) }
{
    let text = expression(file, piece);
    let x = eval_bool(text, 0, text.len(), shape, slots);
    x.value
}

// Whether the mark is set.
pub fn is_marked(shape: Shape, slots: &[u16]) -> bool
    requires { (shape.variables ≤ max_variables) × (shape.matrices ≤ max_matrices) × (slot_count shape ≤ length slots.now) }
    ensures { result ≡ marked (layout_of shape) slots.now }
{
    let mark = give_mark(shape, slots);
    0 < mark
}

// Whether a property is judged on the state before, too.
pub fn judges_steps(property: u64) -> bool
    ensures { result ≡ nat_lt last_state_property property }
{
    LAST_STATE_PROPERTY < property
}

// Whether the constraint is true of a pair of states; where the file has none, it is.
pub fn constraint_true(file: &[u8], shape: Shape, pair: &[u16]) -> bool
    requires { (table : List ℕ) × ReadyPair file.now table shape pair.now }
    ensures { (d : Design) (parts : Parts file.now d) → result ≡ eval_bool (layout_of shape) pair.now d.constraint }
{
    if !has_constraint(file) {
        return true;
    }
    let stands = constraint(file);
    let x = eval_bool(file, stands.at, stands.end, shape, pair);
    x.value
}

impl<'a> Machine<'a> {
    // Whether status and event hold together at no invalid cell.
    pub fn no_invalid(self, slots: &[u16]) -> bool
        requires { length slots.now ≡ slot_count self.shape }
        ensures { (d : Design) (parts : Parts self.entry.file.now d) → result ≡ no_invalid (layout_of self.entry.shape) slots.now d.invalid }
    {
        let count = trailer_word(self.file, CELLS);
        let mut p = trailer_word(self.file, CELLS_AT);
        for _ in 0..count {
            let invalid = self.file[p + 3] != CellKind::Normal as u8;
            if invalid && self.status_and_event(p, slots) {
                return false;
            }
            p = p + 8 + wide(self.file[p + 5]) + word(self.file, p + 6);
        }
        true
    }

    // Property 0 is an expression, property 1 is about invalid cells: both are true or false of one state, and false where the mark is set.
    pub fn property_true(self, piece: &'a [u8], property: u64, slots: &[u16]) -> bool
        requires { (length slots.now ≡ slot_count self.shape) × (piece_right self.file.now piece.now property ≡ true) × (property ≤ last_state_property) }
        ensures { (d : Design) (parts : Parts self.entry.file.now d) → result ≡ holds d (property_of self.entry.file.now piece.now d property) slots.now }
    {
        if is_marked(self.shape, slots) {
            return false;
        }
        if property == 0 {
            expression_true(self.file, piece, self.shape, slots)
        } else {
            self.no_invalid(slots)
        }
    }

    // Whether the property is true in the second state of a pair, the first being the state before it. The first state of a run has none before it: there `first` holds,
    // and the constraint is true. But for that, no property is true where the second state's mark is set.
    pub fn true_at(self, piece: &'a [u8], property: u64, first: bool, pair: &[u16]) -> bool
        requires { (length pair.now ≡ slot_count self.shape + slot_count self.shape) × (piece_right self.file.now piece.now property ≡ true) }
        ensures { (d : Design) (parts : Parts self.entry.file.now d)
            → result ≡ true_at d (property_of self.entry.file.now piece.now d property) (before_in first (slot_count self.entry.shape) pair.now) (drop (slot_count self.entry.shape) pair.now) }
    {
        let n = slot_count(self.shape);
        if !judges_steps(property) {
            return self.property_true(piece, property, &pair[n..]);
        }
        if first {
            return true;
        }
        if is_marked(self.shape, &pair[n..]) {
            return false;
        }
        constraint_true(self.file, self.shape, pair)
    }
}
