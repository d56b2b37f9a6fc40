// Circuits over words of sixteen literals, low first.
ghost use Rattle.std.specs.Prelude.{◌≡◌, map};
ghost use Rattle.design.specs.Tree.{truth};
ghost use Rattle.clauses.specs.Literal.{negate as negated, false_literal, literal_of};
ghost use Rattle.clauses.specs.Circuit.{shift as shifted, addend as addend_of, negate_top, sum!, difference!, product!, less!, xors!, chain!, equal! };
ghost use Rattle.clauses.specs.Expression.{constant_bits};
ghost use Rattle.clauses.specs.Writing.{from_code, from_codes};
ghost use Rattle.clauses.specs.Builders.{sum_bit! };
ghost use Rattle.clauses.specs.Encoders.{Gives, GivesWord, Sums, SumsBit};

use super::gate::{Cursor, Out, emit_and, emit_or, emit_xor};
use super::literal::{FALSE, TRUE, negate};

#[derive(Clone, Copy)]
pub struct Bit {
    pub bit: u32,
    pub carry: u32,
}

// A sum's word, its last carry and the earlier one, which goes into the last bit.
#[derive(Clone, Copy)]
pub struct Word {
    pub lits: [u32; 16],
    pub carry: u32,
    pub earlier: u32,
}

pub fn truth_code(b: u16) -> u32
    ensures { from_code result ≡ literal_of (truth b) }
{
    if b == 0 { FALSE } else { TRUE }
}

// The literals of a number, low first.
pub fn constant(x: u16) -> [u32; 16]
    ensures { from_codes result ≡ constant_bits 16 x }
{
    let mut out = [FALSE; 16];
    let mut n = x;
    for lit in &mut out {
        *lit = truth_code(n % 2);
        n /= 2;
    }
    out
}

// One bit of a sum.
pub fn sum_bit(buf: &mut [i32], pen: Cursor, a: u32, b: u32, c: u32) -> Out<Bit>
    ensures { SumsBit pen (sum_bit! (from_code a) (from_code b) (from_code c)) buf.old buf.new result }
{
    let p = emit_xor(buf, pen, a, b);
    let s = emit_xor(buf, p.pen, p.value, c);
    let u = emit_and(buf, s.pen, a, b);
    let t = emit_and(buf, u.pen, p.value, c);
    let k = emit_or(buf, t.pen, u.value, t.value);
    Out {
        value: Bit {
            bit: s.value,
            carry: k.value,
        },
        pen: k.pen,
    }
}

// The sum's bits and its last two carries.
pub fn sum(a: [u32; 16], b: [u32; 16], c: u32, buf: &mut [i32], pen: Cursor) -> Out<Word>
    ensures { Sums pen (sum! (from_codes a) (from_codes b) (from_code c)) buf.old buf.new result }
{
    let mut lits = [0u32; 16];
    let mut carry = c;
    let mut earlier = c;
    let mut pen = pen;
    for i in 0..16 {
        let t = sum_bit(buf, pen, a[i], b[i], carry);
        lits[i] = t.value.bit;
        earlier = carry;
        carry = t.value.carry;
        pen = t.pen;
    }
    Out {
        value: Word {
            lits,
            carry,
            earlier,
        },
        pen,
    }
}

// One place up: false (3) comes in below, and the top is dropped.
pub fn shift(x: [u32; 16]) -> [u32; 16]
    ensures { from_codes result ≡ shifted false_literal (from_codes x) }
{
    let mut out = [FALSE; 16];
    out[1..].copy_from_slice(&x[..15]);
    out
}

// The operand where a bit of the constant is 1, else all false (3).
pub fn addend(bit: u16, x: [u32; 16]) -> [u32; 16]
    ensures { from_codes result ≡ addend_of (truth bit) (from_codes x) }
{
    if bit == 0 {
        return [FALSE; 16];
    }
    x
}

// The sums of a product that are left: c is the constant without the bits that are done, x the operand shifted so far, and `partial` has the sum so far.
pub fn product(
    left: usize,
    c: u16,
    x: [u32; 16],
    partial: Out<[u32; 16]>,
    buf: &mut [i32],
) -> Out<[u32; 16]>
    ensures { GivesWord partial.pen (product! left c (from_codes x) (from_codes partial.value)) buf.old buf.new result }
{
    if left == 0 {
        return partial;
    }
    let y = partial.value;
    let w = sum(y, addend(c % 2, x), FALSE, buf, partial.pen);
    let total = w.value;
    let value = total.lits;
    let done = Out { value, pen: w.pen };
    product(left - 1, c / 2, shift(x), done, buf)
}

pub fn negate_all(b: [u32; 16]) -> [u32; 16]
    ensures { from_codes result ≡ map negated (from_codes b) }
{
    b.map(negate)
}

pub fn negate_top(b: [u32; 16]) -> [u32; 16]
    ensures { from_codes result ≡ negate_top (from_codes b) }
{
    let mut out = b;
    out[15] = negate(b[15]);
    out
}

pub fn difference(a: [u32; 16], b: [u32; 16], buf: &mut [i32], pen: Cursor) -> Out<Word>
    ensures { Sums pen (difference! (from_codes a) (from_codes b)) buf.old buf.new result }
{
    sum(a, negate_all(b), TRUE, buf, pen)
}

pub fn less(a: [u32; 16], b: [u32; 16], buf: &mut [i32], pen: Cursor) -> Out<u32>
    ensures { Gives pen (less! (from_codes a) (from_codes b)) buf.old buf.new result }
{
    let x = negate_top(a);
    let y = negate_top(b);
    let w = difference(x, y, buf, pen);
    Out {
        value: negate(w.value.carry),
        pen: w.pen,
    }
}

// An xor for each pair of bits.
pub fn xors(a: [u32; 16], b: [u32; 16], buf: &mut [i32], pen: Cursor) -> Out<[u32; 16]>
    ensures { GivesWord pen (xors! (from_codes a) (from_codes b)) buf.old buf.new result }
{
    let mut value = [0u32; 16];
    let mut pen = pen;
    for i in 0..16 {
        let t = emit_xor(buf, pen, a[i], b[i]);
        value[i] = t.value;
        pen = t.pen;
    }
    Out { value, pen }
}

// An and-chain from c over the negations.
pub fn chain(x: [u32; 16], c: u32, buf: &mut [i32], pen: Cursor) -> Out<u32>
    ensures { Gives pen (chain! (from_code c) (map negated (from_codes x))) buf.old buf.new result }
{
    let mut part = Out { value: c, pen };
    for l in x {
        part = emit_and(buf, part.pen, part.value, negate(l));
    }
    part
}

pub fn equal(a: [u32; 16], b: [u32; 16], buf: &mut [i32], pen: Cursor) -> Out<u32>
    ensures { Gives pen (equal! (from_codes a) (from_codes b)) buf.old buf.new result }
{
    let x = xors(a, b, buf, pen);
    let xs = x.value;
    chain(xs, TRUE, buf, x.pen)
}
