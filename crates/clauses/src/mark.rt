// The mark behind a sum, difference or product, where it marks: an or of the mark so far with whether the exact value passes the end.
ghost use Rattle.std.specs.Prelude.{◌≡◌, true};
ghost use Rattle.step.specs.Pattern.{signed, wrap};
ghost use Rattle.clauses.specs.Circuit.{or! };
ghost use Rattle.clauses.specs.Expression.{least_operand, largest_operand, sum_passes!, product_passes! };
ghost use Rattle.clauses.specs.Writing.{from_code, from_codes};
ghost use Rattle.clauses.specs.Encoders.{Writes, summed, MarkWritten};

use super::circuit::{Word, constant, less};
use super::gate::{Out, Pen, emit_or, emit_xor, moved};

// The magnitudes of the least and the largest integer, the first being its pattern, too; and the pattern of -1.
const LEAST: u16 = 32768;

const LARGEST: u16 = 32767;

const MINUS_ONE: u16 = 65535;

// The or of the mark so far with x, which says that an operation passes the end.
pub fn or_mark(pen: Pen, x: Out<u32>, buf: &mut [i32]) -> Pen
    ensures { Writes x.pen (or! (from_code pen.mark) (from_code x.value)) buf.old buf.new (from_code result.mark) result.at × (result.marks ≡ true) }
{
    let m = emit_or(buf, x.pen, pen.mark, x.value);
    Pen {
        at: m.pen,
        marks: true,
        mark: m.value,
    }
}

// After a sum or difference: an xor of its last two carries. The pen is that of its operands.
pub fn mark_sum(w: Out<Word>, pen: Pen, buf: &mut [i32]) -> Pen
    ensures { MarkWritten w.pen pen (sum_passes! (summed w.value)) buf.old buf.new result }
{
    if !pen.marks {
        return moved(pen, w.pen);
    }
    let x = emit_xor(buf, w.pen, w.value.earlier, w.value.carry);
    or_mark(pen, x, buf)
}

// The least and the largest operand whose exact product by the constant c stays inside, as patterns.
pub fn least_operand(c: u16) -> u16
    ensures { result ≡ wrap (least_operand (signed c)) }
{
    if c == 0 {
        return LEAST;
    }
    if c < LEAST {
        return (LEAST / c).wrapping_neg();
    }
    (LARGEST / c.wrapping_neg()).wrapping_neg()
}

pub fn largest_operand(c: u16) -> u16
    ensures { result ≡ wrap (largest_operand (signed c)) }
{
    if c == 0 {
        return LARGEST;
    }
    if c < LEAST {
        return LARGEST / c;
    }
    if c == MINUS_ONE {
        return LARGEST;
    }
    LEAST / c.wrapping_neg()
}

// After the sums of a product of x by c: less(x, least), less(largest, x), their or.
pub fn mark_product(c: u16, x: [u32; 16], pen: Pen, buf: &mut [i32]) -> Pen
    ensures { MarkWritten pen.at pen (product_passes! c (from_codes x)) buf.old buf.new result }
{
    if !pen.marks {
        return pen;
    }
    let l = constant(least_operand(c));
    let a = less(x, l, buf, pen.at);
    let h = constant(largest_operand(c));
    let b = less(h, x, buf, a.pen);
    let o = emit_or(buf, b.pen, a.value, b.value);
    or_mark(pen, o, buf)
}
