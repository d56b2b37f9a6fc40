// Movers: a normal cell or an external, from the state's literals to the muxes of its result. `p` is where a cell stands.
ghost use Rattle.std.specs.Prelude.{◌≡◌, ℕ, ◌*◌, ◌<◌, List, slice_index};
ghost use Rattle.design.specs.Tree.{Design, cell, raise};
ghost use Rattle.design.specs.Check.{event_in};
ghost use Rattle.design.specs.Sections.{Parts, CellFields};
ghost use Rattle.design.specs.Sections.{NormalCell};
ghost use Rattle.clauses.specs.Ready.{ShapedFile, Ready, BoolGates, CellGates, EnableGates, Moves};

use super::action::{encode_list, muxes, store_word};
use super::circuit::{constant, equal};
use super::expression::{encode_test, load_flag, load_status};
use super::gate::{Cursor, Out, emit_and};
use super::literal::{TRUE, negate};
use super::tables::Tables;
use design::bits::offset;
use design::bytes::wide;
use design::limits::{EVENT_ROW, MAX_BITS};
use design::shape::Shape;

// The guard of a normal cell; an absent one is true.
pub fn encode_guard(
    file: &[u8],
    p: usize,
    shape: Shape,
    bits: &[u32; MAX_BITS],
    buf: &mut [i32],
    pen: Cursor,
) -> Out<u32>
    requires { ((table : List ℕ) × Ready file.now table shape) × NormalCell file.now p }
    ensures { (x : NormalCell file.now p) → BoolGates file.now shape bits.now x.cell.guard pen buf.old buf.new result }
{
    let n = wide(file[p + 5]);
    if n == 0 {
        return Out { value: TRUE, pen };
    }
    encode_test(file, file, p + 8, shape, bits, buf, pen)
}

// The external v: not(v), true, muxes.
pub fn encode_external(
    file: &[u8],
    v: usize,
    shape: Shape,
    bits: &[u32; MAX_BITS],
    buf: &mut [i32],
    pen: Cursor,
) -> Out<u32>
    requires { ShapedFile file.now shape × (v < shape.variables) × (slice_index file.now (3 * v) ≡ 2) }
    ensures { Moves file.now shape bits.now (raise v) pen buf.old buf.new result }
{
    let e = negate(load_flag(file, v, false, shape, bits));
    let mut state = *bits;
    let o = offset(file, v);
    state[o] = TRUE;
    let x = muxes(shape, e, &mut state, bits, buf, pen);
    Out {
        value: pen.var,
        pen: x,
    }
}

impl<'a> Tables<'a> {
    // and(equal(status, constant), event) of the cell.
    pub fn status_and_event(
        self,
        p: usize,
        bits: &[u32; MAX_BITS],
        buf: &mut [i32],
        pen: Cursor,
    ) -> Out<u32>
        requires { CellFields self.file.now p }
        ensures { (d : Design) (parts : Parts self.entry.file.now d)
            → CellGates self.entry.file.now self.entry.shape bits.now p (event_in parts.rows) pen buf.old buf.new result }
    {
        let m = wide(self.file[p]);
        let x = load_status(self.file, m, false, self.shape, bits);
        let k = constant(wide(self.file[p + 1]) as u16);
        let q = equal(x, k, buf, pen);
        let e = wide(self.file[p + 2]);
        let at = self.events[EVENT_ROW * m + e] as usize;
        let v = encode_test(self.file, self.file, at + 1, self.shape, bits, buf, q.pen);
        emit_and(buf, v.pen, q.value, v.value)
    }

    // and(and(equal(status, constant), event), guard)
    pub fn encode_enable(
        self,
        p: usize,
        bits: &[u32; MAX_BITS],
        buf: &mut [i32],
        pen: Cursor,
    ) -> Out<u32>
        requires { NormalCell self.file.now p }
        ensures { (x : NormalCell self.entry.file.now p) → EnableGates self.entry.file.now self.entry.shape bits.now (cell x.cell) pen buf.old buf.new result }
    {
        let a = self.status_and_event(p, bits, buf, pen);
        let g = encode_guard(self.file, p, self.shape, bits, buf, a.pen);
        emit_and(buf, g.pen, a.value, g.value)
    }

    // A normal cell: enable, action and target, muxes. The value is the first variable of its result, as it is of an external.
    pub fn encode_cell(
        self,
        p: usize,
        bits: &[u32; MAX_BITS],
        buf: &mut [i32],
        pen: Cursor,
    ) -> Out<u32>
        requires { NormalCell self.file.now p }
        ensures { (x : NormalCell self.entry.file.now p) → Moves self.entry.file.now self.entry.shape bits.now (cell x.cell) pen buf.old buf.new result }
    {
        let e = self.encode_enable(p, bits, buf, pen);
        let mut state = *bits;
        let at = p + 8 + wide(self.file[p + 5]);
        let a = encode_list(self.file, at, self.shape, &mut state, buf, e.pen);
        let o = offset(self.file, self.shape.variables) + 4 * wide(self.file[p]);
        store_word(&mut state, o, constant(wide(self.file[p + 4]) as u16), 4);
        let x = muxes(self.shape, e.value, &mut state, bits, buf, a.pen);
        Out {
            value: a.pen.var,
            pen: x,
        }
    }
}
