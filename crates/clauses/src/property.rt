// The gates of a property: property 0's expression, the chain over the invalid cells, or the constraint; then an and with the mark's negation.
ghost use Rattle.std.specs.Prelude.{◌≡◌, ℕ, true, List};
ghost use Rattle.design.specs.Tree.{Design};
ghost use Rattle.design.specs.Check.{event_in};
ghost use Rattle.design.specs.Sections.{Parts, CellFields};
ghost use Rattle.step.specs.Piece.{piece_right};
ghost use Rattle.step.specs.Property.{property_of};
ghost use Rattle.clauses.specs.Literal.{negate as negated, true_literal};
ghost use Rattle.clauses.specs.Circuit.{and! };
ghost use Rattle.clauses.specs.Expression.{test! };
ghost use Rattle.clauses.specs.Writing.{from_code};
ghost use Rattle.clauses.specs.FlatState.{layout_of, read_slots};
ghost use Rattle.clauses.specs.Encoders.{Gives};
ghost use Rattle.clauses.specs.Ready.{ShapedFile, LinkGates, InvalidGates, PropertyGates, StepPropertyGates};

use super::clause::two_states;
use super::expression::encode_test;
use super::gate::{Cursor, Out, emit_and};
use super::literal::{TRUE, negate};
use super::tables::Tables;
use design::bytes::{wide, word};
use design::index::{CELLS, CELLS_AT, constraint, has_constraint, trailer_word};
use design::kind::CellKind;
use design::limits::{MAX_BITS, PAIR_BITS};
use design::shape::Shape;
use step::limits::CONSTRAINT;
use step::piece::expression;

// A property's end: an and with the mark's negation.
pub fn unmarked(x: Out<u32>, mark: u32, buf: &mut [i32]) -> Out<u32>
    ensures { Gives x.pen (and! (from_code x.value) (negated (from_code mark))) buf.old buf.new result }
{
    emit_and(buf, x.pen, x.value, negate(mark))
}

// True, and no gates: where a property has none.
pub fn no_property(pen: Cursor) -> Out<u32>
    ensures { (from_code result.value ≡ true_literal) × (result.pen ≡ pen) }
{
    Out { value: TRUE, pen }
}

// The constraint over the literals of two states; an absent one is true.
pub fn encode_constraint(
    file: &[u8],
    shape: Shape,
    both: &[u32; PAIR_BITS],
    buf: &mut [i32],
    pen: Cursor,
) -> Out<u32>
    requires { ShapedFile file.now shape }
    ensures { (d : Design) (parts : Parts file.now d)
        → Gives pen (test! (layout_of shape) (read_slots true file.now shape both.now) d.constraint) buf.old buf.new result }
{
    if !has_constraint(file) {
        return no_property(pen);
    }
    let stands = constraint(file);
    encode_test(file, file, stands.at, shape, both, buf, pen)
}

// Property 2 in the step out of the state whose first variable is v; the next state's is `after`. Other properties have no gates there. No piece is read.
pub fn encode_step_property(
    file: &[u8],
    shape: Shape,
    property: u64,
    v: u32,
    after: u32,
    buf: &mut [i32],
    pen: Cursor,
) -> Out<u32>
    requires { ShapedFile file.now shape }
    ensures { (d : Design) (parts : Parts file.now d) (piece : List ℕ)
        → StepPropertyGates d (property_of file.now piece d property) v after pen buf.old buf.new result }
{
    if property < CONSTRAINT {
        return no_property(pen);
    }
    let both = two_states(v, after, shape.bits);
    let x = encode_constraint(file, shape, &both, buf, pen);
    unmarked(x, both[2 * shape.bits - 1], buf)
}

impl<'a> Tables<'a> {
    // The chain's gate for the cell at p, after those so far; a normal cell adds nothing.
    pub fn encode_link(
        self,
        p: usize,
        bits: &[u32; MAX_BITS],
        buf: &mut [i32],
        chain: Out<u32>,
    ) -> Out<u32>
        requires { CellFields self.file.now p }
        ensures { (d : Design) (parts : Parts self.entry.file.now d)
            → LinkGates self.entry.file.now self.entry.shape bits.now p (event_in parts.rows) chain buf.old buf.new result }
    {
        if self.file[p + 3] == CellKind::Normal as u8 {
            return chain;
        }
        let a = self.status_and_event(p, bits, buf, chain.pen);
        emit_and(buf, a.pen, chain.value, negate(a.value))
    }

    // An and-chain from true over not(and(equal, event)) of the invalid cells.
    pub fn encode_invalid(self, bits: &[u32; MAX_BITS], buf: &mut [i32], pen: Cursor) -> Out<u32>
        ensures { (d : Design) (parts : Parts self.entry.file.now d) → InvalidGates self.entry.file.now self.entry.shape bits.now d.invalid pen buf.old buf.new result }
    {
        let mut p = trailer_word(self.file, CELLS_AT);
        let mut chain = Out { value: TRUE, pen };
        for _ in 0..trailer_word(self.file, CELLS) {
            chain = self.encode_link(p, bits, buf, chain);
            p += 8 + wide(self.file[p + 5]) + word(self.file, p + 6);
        }
        chain
    }

    // The property in the frame whose state has the literals `bits`.
    pub fn encode_property(
        self,
        piece: &'a [u8],
        property: u64,
        bits: &[u32; MAX_BITS],
        buf: &mut [i32],
        pen: Cursor,
    ) -> Out<u32>
        requires { piece_right self.file.now piece.now property ≡ true }
        ensures { (d : Design) (parts : Parts self.entry.file.now d)
            → PropertyGates self.entry.file.now self.entry.shape bits.now d (property_of self.entry.file.now piece.now d property) pen buf.old buf.new result }
    {
        let shape = self.shape;
        if property == 0 {
            let text = expression(self.file, piece);
            let x = encode_test(text, self.file, 0, shape, bits, buf, pen);
            return unmarked(x, bits[shape.bits - 1], buf);
        }
        if property == 1 {
            let x = self.encode_invalid(bits, buf, pen);
            return unmarked(x, bits[shape.bits - 1], buf);
        }
        no_property(pen)
    }
}
