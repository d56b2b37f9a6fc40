// Parts of the formula. The instance has the table of the cells.
ghost use Rattle.std.specs.Prelude.{◌≡◌, ℕ, ◌+◌, ◌*◌, ◌≤◌, true, List};
ghost use Rattle.step.specs.Limits.{max_bound};
ghost use Rattle.step.specs.Piece.{piece_right};
ghost use Rattle.clauses.specs.FrameSizes.{SmallFrame, frame_length};
ghost use Rattle.clauses.specs.Writing.{variable_limit};
ghost use Rattle.clauses.specs.Ready.{FormulaReady, StepPut, FramePut, PartPut, FormulaPut};

use super::clause::{put_all_ties, put_any, put_pairs, variables};
use super::first::put_first;
use super::frame::{FrameSizes, frame_length, times};
use super::gate::Cursor;
use super::instance::Instance;
use super::property::encode_step_property;
use super::tables::Tables;

// The first variable of frame j.
pub fn frame_start(s: FrameSizes, j: u64) -> u32
    requires { SmallFrame s × (j ≤ max_bound) × (2 + j * frame_length s ≤ variable_limit) }
    ensures { result ≡ 2 + j * frame_length s }
{
    (2 + times(j, frame_length(s))) as u32
}

impl<'a> Tables<'a> {
    // The step out of the frame at v: the clause of all flags, their pairs, the gates with those of property 2, the ties.
    pub fn put_step(self, inst: Instance, v: u32, buf: &mut [i32], cur: usize) -> usize
        requires { FormulaReady self.file.now self.shape inst × (v ≤ variable_limit) }
        ensures { (piece : List ℕ) → StepPut self.entry.file.now piece buf.old buf.new cur result inst v }
    {
        let cells = inst.cells;
        let s = inst.sizes;
        let n = s.bits as usize;
        let all = s.movers as usize;
        let flags = v + (s.bits + s.property.ands + s.property.wides) as u32;
        let after = v + frame_length(s) as u32;
        let a = put_any(buf, cur, flags, all);
        let b = put_pairs(buf, a, flags, all);
        let bits = variables(v, n);
        let pen = Cursor {
            cur: b,
            var: flags + all as u32,
        };
        let g = self.encode_step(&cells, &bits, buf, pen);
        let firsts = g.value;
        let x = encode_step_property(self.file, self.shape, inst.property, v, after, buf, g.pen);
        put_all_ties(buf, x.pen.cur, flags, all, &firsts, after, n)
    }

    // Frame j: the property's gates, and the step out of it if it is not the last.
    pub fn put_frame(
        self,
        piece: &'a [u8],
        inst: Instance,
        j: u64,
        buf: &mut [i32],
        cur: usize,
    ) -> usize
        requires { FormulaReady self.file.now self.shape inst × (piece_right self.file.now piece.now inst.property ≡ true) × (j ≤ inst.bound) }
        ensures { FramePut self.entry.file.now piece.now buf.old buf.new cur result inst j }
    {
        let s = inst.sizes;
        let k = inst.bound;
        let v = frame_start(s, j);
        let n = s.bits as usize;
        let bits = variables(v, n);
        let pen = Cursor {
            cur,
            var: v + n as u32,
        };
        let x = self.encode_property(piece, inst.property, &bits, buf, pen);
        if j < k {
            self.put_step(inst, v, buf, x.pen.cur)
        } else {
            x.pen.cur
        }
    }

    // Part i.
    pub fn put_part(
        self,
        piece: &'a [u8],
        inst: Instance,
        i: u64,
        buf: &mut [i32],
        cur: usize,
    ) -> usize
        requires { FormulaReady self.file.now self.shape inst × (piece_right self.file.now piece.now inst.property ≡ true) × (i ≤ inst.bound + 2) }
        ensures { PartPut self.entry.file.now piece.now buf.old buf.new cur result inst i }
    {
        let k = inst.bound;
        if i == 0 {
            return put_first(self.file, self.shape, buf, cur);
        }
        if k + 1 < i {
            return self.put_last(piece, inst, buf, cur);
        }
        self.put_frame(piece, inst, i - 1, buf, cur)
    }

    // All parts, from the buffer's front on; answers the number of words.
    pub fn put_parts(self, piece: &'a [u8], inst: Instance, buf: &mut [i32]) -> usize
        requires { FormulaReady self.file.now self.shape inst × (piece_right self.file.now piece.now inst.property ≡ true) }
        ensures { FormulaPut self.entry.file.now piece.now buf.old buf.new 0 result inst }
    {
        let mut at: usize = 0;
        for i in 0..inst.bound + 3 {
            at = self.put_part(piece, inst, i, buf, at);
        }
        at
    }
}
