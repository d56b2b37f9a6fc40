// The gates of statements and lists of them: the statement walker and the list walker call each other, with the bytes left falling.
// The state's literals stand in an array that is lent and changed in place; an if saves a copy. The last of them is the mark.
ghost use Rattle.std.specs.Prelude.{◌≡◌, ◌+◌, ◌*◌, ◌≤◌, false, take};
ghost use Rattle.design.specs.Limits.{max_bits};
ghost use Rattle.clauses.specs.FlatState.{over, Slotted};
ghost use Rattle.clauses.specs.Encoders.{MuxesWritten, Here, assigns_at, stmts_at, lists_at, AssignEncoded, StmtEncoded, ListEncoded};

use super::expression::{encode_bool, encode_int};
use super::gate::{Cursor, Pen, emit_mux};
use design::bits::offset;
use design::bytes::wide;
use design::kind::Kind;
use design::limits::MAX_BITS;
use design::shape::Shape;

// The cursor, and the position past what was read.
#[derive(Clone, Copy)]
pub struct Done {
    pub pen: Cursor,
    pub next: usize,
}

// A mux for every bit of the state, into `state`.
pub fn muxes(
    shape: Shape,
    c: u32,
    state: &mut [u32; MAX_BITS],
    other: &[u32; MAX_BITS],
    buf: &mut [i32],
    pen: Cursor,
) -> Cursor
    requires { shape.bits ≤ max_bits }
    ensures { MuxesWritten shape c state.old other.now state.new pen buf.old buf.new result }
{
    let mut pen = pen;
    for i in 0..shape.bits {
        let t = emit_mux(buf, pen, c, state[i], other[i]);
        state[i] = t.value;
        pen = t.pen;
    }
    pen
}

// The first w of sixteen literals into the state.
pub fn store_word(state: &mut [u32; MAX_BITS], off: usize, x: [u32; 16], w: usize)
    requires { (off + w ≤ max_bits) × (w ≤ 16) }
    ensures { state.new ≡ over off (take w x) state.old }
{
    state[off..off + w].copy_from_slice(&x[..w]);
}

// What follows the operator byte of an assignment. The mark is stored and then the value.
pub fn encode_assign(
    file: &[u8],
    at: usize,
    shape: Shape,
    state: &mut [u32; MAX_BITS],
    buf: &mut [i32],
    pen: Cursor,
) -> Done
    requires { Slotted false file.now shape state.old × Here file.now (assigns_at file.now file.now shape) at }
    ensures { AssignEncoded file.now shape state.old state.new at pen buf.old buf.new result }
{
    let v = wide(file[at]);
    let k = file[3 * v];
    let o = offset(file, v);
    let last = shape.bits - 1;
    let from = Pen {
        at: pen,
        marks: true,
        mark: state[last],
    };
    if k == Kind::Integer as u8 {
        let x = encode_int(file, file, at + 1, shape, state, buf, from);
        state[last] = x.pen.mark;
        store_word(state, o, x.value, 16);
        Done {
            pen: x.pen.at,
            next: x.next,
        }
    } else {
        let x = encode_bool(file, file, at + 1, shape, state, buf, from);
        state[last] = x.pen.mark;
        state[o] = x.value;
        Done {
            pen: x.pen.at,
            next: x.next,
        }
    }
}

// The gates of the statement at `at`: an assignment, or an if, whose lists both start from the mark that the condition left.
#[cycle(encode_list_encode_stmt)]
pub fn encode_stmt(
    file: &[u8],
    at: usize,
    shape: Shape,
    state: &mut [u32; MAX_BITS],
    buf: &mut [i32],
    pen: Cursor,
) -> Done
    requires { Slotted false file.now shape state.old × Here file.now (stmts_at file.now file.now shape) at }
    ensures { StmtEncoded file.now shape state.old state.new at pen buf.old buf.new result }
{
    let op = file[at];
    if op == 0x20 {
        return encode_assign(file, at + 1, shape, state, buf, pen);
    }
    let last = shape.bits - 1;
    let from = Pen {
        at: pen,
        marks: true,
        mark: state[last],
    };
    let c = encode_bool(file, file, at + 1, shape, state, buf, from);
    state[last] = c.pen.mark;
    let mut other = *state;
    let a = encode_list(file, c.next, shape, state, buf, c.pen.at);
    let b = encode_list(file, a.next, shape, &mut other, buf, a.pen);
    let m = muxes(shape, c.value, state, &other, buf, b.pen);
    Done {
        pen: m,
        next: b.next,
    }
}

// The gates of the list at `at`: its count, and then its statements.
#[cycle(encode_list_encode_stmt)]
pub fn encode_list(
    file: &[u8],
    at: usize,
    shape: Shape,
    state: &mut [u32; MAX_BITS],
    buf: &mut [i32],
    pen: Cursor,
) -> Done
    requires { Slotted false file.now shape state.old × Here file.now (lists_at file.now file.now shape) at }
    ensures { ListEncoded file.now shape state.old state.new at pen buf.old buf.new result }
{
    let mut done = Done { pen, next: at + 1 };
    for _ in 0..file[at] {
        done = encode_stmt(file, done.next, shape, state, buf, done.pen);
    }
    done
}
