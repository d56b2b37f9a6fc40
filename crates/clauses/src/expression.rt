// The gates of expressions over the bytes of a design file. `text` holds the expression, `file` the variables' kinds; `bits` are the
// state's literals, as many as `shape` says, and behind them the next state's where the expression may read it.
ghost use Rattle.std.specs.Prelude.{◌≡◌, ◌+◌, ◌*◌, ◌<◌, ◌≤◌, Bool, true, not, ◌||◌, ◌⊎◌, List, length, take, drop, ℤ, if◌then◌else◌, ◌≢◌, slice_index};
ghost use Rattle.design.specs.State.{layout_of, number_in};
ghost use Rattle.clauses.specs.Expression.{pad, integer_at, boolean_at};
ghost use Rattle.clauses.specs.Writing.{from_code, from_codes};
ghost use Rattle.clauses.specs.Builders.{beside!, arithmetic!, multiplied!, logic!, compare! };
ghost use Rattle.clauses.specs.FlatState.{read_slots, Slotted};
ghost use Rattle.clauses.specs.Encoders.{WritesMarked, int_marked, IntHere, BoolHere, IntEncoded, BoolEncoded, TestEncoded};

use super::circuit::{constant, difference, equal, less, product, sum, truth_code};
use super::gate::{Cursor, Out, Pen, emit_and, emit_or, moved};
use super::literal::{FALSE, negate};
use super::mark::{mark_product, mark_sum};
use design::bits::offset;
use design::bytes::{wide, word};
use design::shape::Shape;

// The literal of a Boolean expression or the literals of an integer one, the pen after its gates, and the position past it.
#[derive(Clone, Copy)]
pub struct Encoded<T> {
    pub value: T,
    pub pen: Pen,
    pub next: usize,
}

// So many literals, false above.
pub fn load(bits: &[u32], off: usize, w: usize) -> [u32; 16]
    requires { (off + w ≤ length bits.now) × (w ≤ 16) }
    ensures { from_codes result ≡ pad 16 (take w (drop off (from_codes bits.now))) }
{
    let mut out = [FALSE; 16];
    out[..w].copy_from_slice(&bits[off..off + w]);
    out
}

// An operator's gates after those of its operands, of which b is the last.
fn arithmetic(op: u8, a: [u32; 16], b: Encoded<[u32; 16]>, buf: &mut [i32]) -> Encoded<[u32; 16]>
    ensures { WritesMarked b.pen (arithmetic! op b.pen.marks (from_codes a) (int_marked b)) buf.old buf.new (from_codes result.value) result.pen × (result.next ≡ b.next) }
{
    let w = if op == 0x04 {
        sum(a, b.value, FALSE, buf, b.pen.at)
    } else {
        difference(a, b.value, buf, b.pen.at)
    };
    let total = w.value;
    let value = total.lits;
    Encoded {
        value,
        pen: mark_sum(w, b.pen, buf),
        next: b.next,
    }
}

// The gates of a product by the constant c after those of its operand.
fn multiply(c: u16, a: Encoded<[u32; 16]>, buf: &mut [i32]) -> Encoded<[u32; 16]>
    ensures { WritesMarked a.pen (multiplied! c a.pen.marks (int_marked a)) buf.old buf.new (from_codes result.value) result.pen × (result.next ≡ a.next) }
{
    let value = constant(0);
    let none = Out {
        value,
        pen: a.pen.at,
    };
    let x = a.value;
    let w = product(16, c, x, none, buf);
    let value = w.value;
    Encoded {
        value,
        pen: mark_product(c, x, moved(a.pen, w.pen), buf),
        next: a.next,
    }
}

fn logic(op: u8, a: u32, b: Encoded<u32>, buf: &mut [i32]) -> Encoded<u32>
    ensures { WritesMarked b.pen (beside! (from_code b.pen.mark) (logic! op (from_code a) (from_code b.value))) buf.old buf.new (from_code result.value) result.pen × (result.next ≡ b.next) }
{
    let w = if op == 0x13 {
        emit_and(buf, b.pen.at, a, b.value)
    } else {
        emit_or(buf, b.pen.at, a, b.value)
    };
    Encoded {
        value: w.value,
        pen: moved(b.pen, w.pen),
        next: b.next,
    }
}

fn compare(op: u8, a: [u32; 16], b: Encoded<[u32; 16]>, buf: &mut [i32]) -> Encoded<u32>
    ensures { WritesMarked b.pen (beside! (from_code b.pen.mark) (compare! op (from_codes a) (from_codes b.value))) buf.old buf.new (from_code result.value) result.pen × (result.next ≡ b.next) }
{
    let w = if op == 0x15 {
        equal(a, b.value, buf, b.pen.at)
    } else {
        less(a, b.value, buf, b.pen.at)
    };
    Encoded {
        value: w.value,
        pen: moved(b.pen, w.pen),
        next: b.next,
    }
}

// Where the bits of the state begin, or of the next one.
pub fn first_bit(shape: Shape, next: bool) -> usize
    ensures { result ≡ (if next then shape.bits else 0) }
{
    if next { shape.bits } else { 0 }
}

// The literals of the integer variable v, of the state or of the next one.
pub fn load_variable(file: &[u8], v: usize, next: bool, shape: Shape, bits: &[u32]) -> [u32; 16]
    requires { Slotted next file.now shape bits.now × (v < shape.variables) × (slice_index file.now (3 * v) ≡ 1) }
    ensures { (later : Bool) → (not next || later) ≡ true
        → from_codes result ≡ integer_at (read_slots later file.now shape bits.now) (number_in (layout_of shape) next v) }
{
    let o = first_bit(shape, next) + offset(file, v);
    load(bits, o, 16)
}

// The literals of the status of matrix m, likewise.
pub fn load_status(file: &[u8], m: usize, next: bool, shape: Shape, bits: &[u32]) -> [u32; 16]
    requires { Slotted next file.now shape bits.now × (m < shape.matrices) }
    ensures { (later : Bool) → (not next || later) ≡ true
        → from_codes result ≡ integer_at (read_slots later file.now shape bits.now) (shape.variables + number_in (layout_of shape) next m) }
{
    let o = first_bit(shape, next) + (offset(file, shape.variables) + 4 * m);
    load(bits, o, 4)
}

// The literal of the Boolean or external variable v, likewise.
pub fn load_flag(file: &[u8], v: usize, next: bool, shape: Shape, bits: &[u32]) -> u32
    requires { Slotted next file.now shape bits.now × (v < shape.variables) × (slice_index file.now (3 * v) ≢ 1) }
    ensures { (later : Bool) → (not next || later) ≡ true
        → from_code result ≡ boolean_at (read_slots later file.now shape bits.now) (number_in (layout_of shape) next v) }
{
    let o = first_bit(shape, next) + offset(file, v);
    bits[o]
}

fn int_out(value: [u32; 16], pen: Pen, next: usize) -> Encoded<[u32; 16]>
    ensures { (result.value ≡ value) × (result.pen ≡ pen) × (result.next ≡ next) }
{
    Encoded { value, pen, next }
}

// The constant, variable or status at `at`: no gates.
fn int_leaf(
    text: &[u8],
    file: &[u8],
    at: usize,
    shape: Shape,
    bits: &[u32],
    pen: Pen,
) -> Encoded<[u32; 16]>
    requires { ((later : Bool) × Slotted later file.now shape bits.now × IntHere text.now file.now shape later at)
        × ((slice_index text.now at < 0x04) ⊎ (0x05 < slice_index text.now at)) × (slice_index text.now at ≢ 0x08) }
    ensures { (later : Bool) (xs : List ℤ) → IntEncoded text.now file.now shape later bits.now at pen xs xs result }
{
    let op = text[at];
    if op == 0x01 {
        return int_out(constant(word(text, at + 1) as u16), pen, at + 3);
    }
    let i = wide(text[at + 1]);
    match op {
        0x02 => int_out(load_variable(file, i, false, shape, bits), pen, at + 2),
        0x03 => int_out(load_status(file, i, false, shape, bits), pen, at + 2),
        0x06 => int_out(load_variable(file, i, true, shape, bits), pen, at + 2),
        _ => int_out(load_status(file, i, true, shape, bits), pen, at + 2),
    }
}

// The gates of the integer expression at `at`.
pub fn encode_int(
    text: &[u8],
    file: &[u8],
    at: usize,
    shape: Shape,
    bits: &[u32],
    buf: &mut [i32],
    pen: Pen,
) -> Encoded<[u32; 16]>
    requires { (later : Bool) × Slotted later file.now shape bits.now × IntHere text.now file.now shape later at }
    ensures { (later : Bool)
        → IntEncoded text.now file.now shape later bits.now at pen buf.old buf.new result }
{
    let op = text[at];
    if op < 0x04 {
        return int_leaf(text, file, at, shape, bits, pen);
    }
    if op == 0x08 {
        let a = encode_int(text, file, at + 3, shape, bits, buf, pen);
        return multiply(word(text, at + 1) as u16, a, buf);
    }
    if 0x05 < op {
        return int_leaf(text, file, at, shape, bits, pen);
    }
    let a = encode_int(text, file, at + 1, shape, bits, buf, pen);
    let b = encode_int(text, file, a.next, shape, bits, buf, a.pen);
    arithmetic(op, a.value, b, buf)
}

// The constant, Boolean or external at `at`: no gates.
fn bool_leaf(
    text: &[u8],
    file: &[u8],
    at: usize,
    shape: Shape,
    bits: &[u32],
    pen: Pen,
) -> Encoded<u32>
    requires { ((later : Bool) × Slotted later file.now shape bits.now × BoolHere text.now file.now shape later at)
        × ((slice_index text.now at < 0x12) ⊎ (0x16 < slice_index text.now at)) }
    ensures { (later : Bool) (xs : List ℤ) → BoolEncoded text.now file.now shape later bits.now at pen xs xs result }
{
    let op = text[at];
    if op == 0x10 {
        return Encoded {
            value: truth_code(text[at + 1] as u16),
            pen,
            next: at + 2,
        };
    }
    Encoded {
        value: load_flag(file, wide(text[at + 1]), 0x16 < op, shape, bits),
        pen,
        next: at + 2,
    }
}

// The gates of the comparison at `at`.
fn encode_compare(
    text: &[u8],
    file: &[u8],
    at: usize,
    shape: Shape,
    bits: &[u32],
    buf: &mut [i32],
    pen: Pen,
) -> Encoded<u32>
    requires { ((later : Bool) × Slotted later file.now shape bits.now × BoolHere text.now file.now shape later at)
        × (0x15 ≤ slice_index text.now at) × (slice_index text.now at ≤ 0x16) }
    ensures { (later : Bool)
        → BoolEncoded text.now file.now shape later bits.now at pen buf.old buf.new result }
{
    let a = encode_int(text, file, at + 1, shape, bits, buf, pen);
    let b = encode_int(text, file, a.next, shape, bits, buf, a.pen);
    compare(text[at], a.value, b, buf)
}

// The gates of the Boolean expression at `at`.
pub fn encode_bool(
    text: &[u8],
    file: &[u8],
    at: usize,
    shape: Shape,
    bits: &[u32],
    buf: &mut [i32],
    pen: Pen,
) -> Encoded<u32>
    requires { (later : Bool) × Slotted later file.now shape bits.now × BoolHere text.now file.now shape later at }
    ensures { (later : Bool)
        → BoolEncoded text.now file.now shape later bits.now at pen buf.old buf.new result }
{
    let op = text[at];
    if op < 0x12 {
        return bool_leaf(text, file, at, shape, bits, pen);
    }
    if 0x16 < op {
        return bool_leaf(text, file, at, shape, bits, pen);
    }
    if op == 0x12 {
        let a = encode_bool(text, file, at + 1, shape, bits, buf, pen);
        return Encoded {
            value: negate(a.value),
            pen: a.pen,
            next: a.next,
        };
    }
    if op < 0x15 {
        let a = encode_bool(text, file, at + 1, shape, bits, buf, pen);
        let b = encode_bool(text, file, a.next, shape, bits, buf, a.pen);
        return logic(op, a.value, b, buf);
    }
    encode_compare(text, file, at, shape, bits, buf, pen)
}

// The gates of a Boolean expression that marks nothing.
pub fn encode_test(
    text: &[u8],
    file: &[u8],
    at: usize,
    shape: Shape,
    bits: &[u32],
    buf: &mut [i32],
    pen: Cursor,
) -> Out<u32>
    requires { (later : Bool) × Slotted later file.now shape bits.now × BoolHere text.now file.now shape later at }
    ensures { (later : Bool)
        → TestEncoded text.now file.now shape later bits.now at pen buf.old buf.new result }
{
    let quiet = Pen {
        at: pen,
        marks: false,
        mark: FALSE,
    };
    let x = encode_bool(text, file, at, shape, bits, buf, quiet);
    Out {
        value: x.value,
        pen: x.pen.at,
    }
}
