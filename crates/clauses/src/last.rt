// Part k + 2: the clause of the negated property of all frames; of property 2, of all steps.
ghost use Rattle.std.specs.Prelude.{◌≡◌, ℕ, ◌+◌, ◌-◌, ◌<◌, ◌≤◌, true, List};
ghost use Rattle.step.specs.Piece.{piece_right};
ghost use Rattle.step.specs.Property.{property_of};
ghost use Rattle.design.specs.Tree.{Design};
ghost use Rattle.design.specs.Check.{check, accepted};
ghost use Rattle.design.specs.Sections.{Parts};
ghost use Rattle.clauses.specs.Formula.{property_at, step_property_at, state_at, S, P, F};
ghost use Rattle.clauses.specs.Writing.{variable_limit, from_code};
ghost use Rattle.clauses.specs.Ready.{ShapedFile, SmallFormula, property_literal_at, PropertyLiteralFits, LastPut};

use super::clause::variables;
use super::frame::{frame_length, size_step_property};
use super::gate::Cursor;
use super::instance::Instance;
use super::literal::{negate, put_end, put_literal};
use super::property::encode_step_property;
use super::tables::Tables;
use design::shape::Shape;
use step::limits::CONSTRAINT;

// a - b, or 0 where b is greater.
pub fn less_by(a: u32, b: u64) -> u32
    ensures { b ≤ a → result ≡ a - b }
{
    (a as u64).saturating_sub(b) as u32
}

// Property 2's literal in the step out of the frame at v, the next frame being at `after`; its gates go nowhere. They are the last before the next frame.
pub fn step_literal(file: &[u8], shape: Shape, property: u64, v: u32, after: u32) -> u32
    requires { ShapedFile file.now shape }
    ensures { (d : Design) → check file.now ≡ accepted d → (piece : List ℕ) → after ≡ v + F d (property_of file.now piece d property) → after + S d ≤ variable_limit
        → from_code result ≡ (step_property_at d (property_of file.now piece d property) v (state_at d after)).out }
{
    let gates = size_step_property(file, shape, property);
    let mut none = [0i32; 1];
    let pen = Cursor {
        cur: 0,
        var: less_by(after, gates.ands + gates.wides),
    };
    let x = encode_step_property(file, shape, property, v, after, &mut none, pen);
    x.value
}

impl<'a> Tables<'a> {
    // The property's literal at the frame whose state is the variables from v on; its gates go nowhere.
    pub fn state_literal(self, piece: &'a [u8], property: u64, v: u32) -> u32
        requires { (piece_right self.file.now piece.now property ≡ true) × (v ≤ variable_limit) }
        ensures { (d : Design) (parts : Parts self.entry.file.now d)
            → v + self.entry.shape.bits + P d (property_of self.entry.file.now piece.now d property) ≤ variable_limit
            → from_code result ≡ (property_at d (property_of self.entry.file.now piece.now d property) v).out }
    {
        let shape = self.shape;
        let bits = variables(v, shape.bits);
        let mut none = [0i32; 1];
        let pen = Cursor {
            cur: 0,
            var: v + shape.bits as u32,
        };
        let x = self.encode_property(piece, property, &bits, &mut none, pen);
        x.value
    }

    // The property's literal in the frame at v, where frames are `stride` apart.
    pub fn property_literal(self, piece: &'a [u8], property: u64, v: u32, stride: u32) -> u32
        requires { (piece_right self.file.now piece.now property ≡ true) × (v ≤ variable_limit) × (stride < variable_limit) }
        ensures { (d : Design) → check self.entry.file.now ≡ accepted d → stride ≡ F d (property_of self.entry.file.now piece.now d property)
            → PropertyLiteralFits d (property_of self.entry.file.now piece.now d property) v
            → from_code result ≡ property_literal_at d (property_of self.entry.file.now piece.now d property) v }
    {
        if property < CONSTRAINT {
            return self.state_literal(piece, property, v);
        }
        step_literal(self.file, self.shape, property, v, v + stride)
    }

    pub fn put_last(self, piece: &'a [u8], inst: Instance, buf: &mut [i32], cur: usize) -> usize
        requires { (piece_right self.file.now piece.now inst.property ≡ true) × SmallFormula inst.sizes inst.bound }
        ensures { LastPut self.entry.file.now piece.now buf.old buf.new cur result inst.property inst.bound inst.sizes }
    {
        let sizes = inst.sizes;
        let frames = inst.bound + sizes.last;
        let stride = frame_length(sizes) as u32;
        let mut at = cur;
        let mut x: u32 = 2;
        for _ in 0..frames {
            let l = self.property_literal(piece, inst.property, x, stride);
            at = put_literal(buf, at, negate(l));
            x += stride;
        }
        put_end(buf, at)
    }
}
