// The values of expressions in a state, over the bytes: a decision over the operator byte, with ranges for operators of one shape.
// In every function: `text` holds the expression; what is read starts at `at` and does not pass `end`; `shape` has the numbers of variables and
// matrices; `slots` has the state, and behind it the next state where the expression may read it. The reader has seen the variables' kinds, in
// whatever file they stand, and the depth: neither is needed again.
ghost use Rattle.std.specs.Prelude.{◌≡◌, ℕ, ◌+◌, ◌≤◌, Bool, true, false, not, ◌&&◌, ◌||◌, List, length, ◌+ℤ◌, ◌-ℤ◌, ◌*ℤ◌, if◌then◌else◌, ◌==◌, nat_eq};
ghost use Rattle.design.specs.Expression.{with_later, int_expr, bool_expr};
ghost use Rattle.design.specs.Check.{names_of};
ghost use Rattle.design.specs.State.{layout_of};
ghost use Rattle.step.specs.Pattern.{plus, minus, times, below, signed, outside};
ghost use Rattle.step.specs.Accepted.{slots_needed, is_read, past, int_value, bool_value, int_passes, bool_passes};

use super::number::{
    below16, difference_passes, minus16, plus16, product_passes, sum_passes, times16,
};
use design::bytes::{wide, word};
use design::shape::Shape;

// A value, the position past its expression, and whether the expression passes the end: whether a sum, difference or product in it has an exact
// value that 16 bits do not hold. Only statements and conditions ask for the last.
#[derive(Clone, Copy)]
pub struct Valued<T> {
    pub value: T,
    pub next: usize,
    pub passed: bool,
}

// Of an expression without operands.
fn plain<T>(value: T, next: usize) -> Valued<T>
    ensures { (result.value ≡ value) × (result.next ≡ next) × (result.passed ≡ false) }
{
    Valued {
        value,
        next,
        passed: false,
    }
}

// Sum, difference.
pub fn arithmetic(op: u8, a: Valued<u16>, b: Valued<u16>) -> Valued<u16>
    ensures { (result.value ≡ (if nat_eq op 0x04 then plus a.value b.value else minus a.value b.value)) × (result.next ≡ b.next)
        × (result.passed ≡ ((a.passed || b.passed) || (if nat_eq op 0x04 then outside (signed a.value +ℤ signed b.value) else outside (signed a.value -ℤ signed b.value)))) }
{
    let before = a.passed || b.passed;
    if op == 0x04 {
        return Valued {
            value: plus16(a.value, b.value),
            next: b.next,
            passed: before || sum_passes(a.value, b.value),
        };
    }
    Valued {
        value: minus16(a.value, b.value),
        next: b.next,
        passed: before || difference_passes(a.value, b.value),
    }
}

// Product by the constant c.
pub fn multiplied(c: u16, a: Valued<u16>) -> Valued<u16>
    ensures { (result.value ≡ times c a.value) × (result.next ≡ a.next) × (result.passed ≡ (a.passed || outside (signed c *ℤ signed a.value))) }
{
    Valued {
        value: times16(c, a.value),
        next: a.next,
        passed: a.passed || product_passes(c, a.value),
    }
}

// Not.
pub fn negated(a: Valued<bool>) -> Valued<bool>
    ensures { (result.value ≡ not a.value) × (result.next ≡ a.next) × (result.passed ≡ a.passed) }
{
    Valued {
        value: !a.value,
        next: a.next,
        passed: a.passed,
    }
}

// And, or.
fn logic_value(op: u8, a: bool, b: bool) -> bool
    ensures { result ≡ (if nat_eq op 0x13 then a && b else a || b) }
{
    if op == 0x13 { a && b } else { a || b }
}

pub fn logic(op: u8, a: Valued<bool>, b: Valued<bool>) -> Valued<bool>
    ensures { (result.value ≡ (if nat_eq op 0x13 then a.value && b.value else a.value || b.value)) × (result.next ≡ b.next) × (result.passed ≡ (a.passed || b.passed)) }
{
    Valued {
        value: logic_value(op, a.value, b.value),
        next: b.next,
        passed: a.passed || b.passed,
    }
}

// Equal, signed less.
fn compare_value(op: u8, a: u16, b: u16) -> bool
    ensures { result ≡ (if nat_eq op 0x15 then (a == b) else below a b) }
{
    if op == 0x15 { a == b } else { below16(a, b) }
}

pub fn compare(op: u8, a: Valued<u16>, b: Valued<u16>) -> Valued<bool>
    ensures { (result.value ≡ (if nat_eq op 0x15 then (a.value == b.value) else below a.value b.value)) × (result.next ≡ b.next) × (result.passed ≡ (a.passed || b.passed)) }
{
    Valued {
        value: compare_value(op, a.value, b.value),
        next: b.next,
        passed: a.passed || b.passed,
    }
}

// The integer expression at `at`, which the reader accepts.
pub fn eval_int(text: &[u8], at: usize, end: usize, shape: Shape, slots: &[u16]) -> Valued<u16>
    requires { ((file : List ℕ) × (depth : ℕ) × (later : Bool) × (slots_needed later shape ≤ length slots.now)
        × (is_read (int_expr text.now (with_later later (names_of file shape)) end depth at) ≡ true)) × (end ≤ length text.now) }
    ensures { (file : List ℕ) (depth : ℕ) (later : Bool) → is_read (int_expr text.now (with_later later (names_of file shape)) end depth at) ≡ true
        → (result.value ≡ int_value (layout_of shape) slots.now (int_expr text.now (with_later later (names_of file shape)) end depth at))
        × (result.next ≡ past (int_expr text.now (with_later later (names_of file shape)) end depth at))
        × (result.passed ≡ int_passes (layout_of shape) slots.now (int_expr text.now (with_later later (names_of file shape)) end depth at)) }
{
    let op = text[at];
    let p = at + 1;
    match op {
        0x01 => plain(word(text, p) as u16, p + 2),
        0x02 => {
            let v = wide(text[p]);
            plain(slots[v], p + 1)
        }
        0x03 => {
            let m = wide(text[p]);
            plain(slots[shape.variables + m], p + 1)
        }
        0x04..=0x05 => {
            let a = eval_int(text, p, end, shape, slots);
            let b = eval_int(text, a.next, end, shape, slots);
            arithmetic(op, a, b)
        }
        0x06 => {
            let v = wide(text[p]);
            plain(slots[shape.variables + shape.matrices + 1 + v], p + 1)
        }
        0x07 => {
            let m = wide(text[p]);
            plain(
                slots[shape.variables + (shape.variables + shape.matrices + 1 + m)],
                p + 1,
            )
        }
        0x08 => {
            let a = eval_int(text, p + 2, end, shape, slots);
            multiplied(word(text, p) as u16, a)
        }
        _ => plain(0, at),
    }
}

// The Boolean expression at `at`, likewise.
pub fn eval_bool(text: &[u8], at: usize, end: usize, shape: Shape, slots: &[u16]) -> Valued<bool>
    requires { ((file : List ℕ) × (depth : ℕ) × (later : Bool) × (slots_needed later shape ≤ length slots.now)
        × (is_read (bool_expr text.now (with_later later (names_of file shape)) end depth at) ≡ true)) × (end ≤ length text.now) }
    ensures { (file : List ℕ) (depth : ℕ) (later : Bool) → is_read (bool_expr text.now (with_later later (names_of file shape)) end depth at) ≡ true
        → (result.value ≡ bool_value (layout_of shape) slots.now (bool_expr text.now (with_later later (names_of file shape)) end depth at))
        × (result.next ≡ past (bool_expr text.now (with_later later (names_of file shape)) end depth at))
        × (result.passed ≡ bool_passes (layout_of shape) slots.now (bool_expr text.now (with_later later (names_of file shape)) end depth at)) }
{
    let op = text[at];
    let p = at + 1;
    match op {
        0x10 => plain(0 < text[p], p + 1),
        0x11 => {
            let v = wide(text[p]);
            plain(0 < slots[v], p + 1)
        }
        0x12 => {
            let a = eval_bool(text, p, end, shape, slots);
            negated(a)
        }
        0x13..=0x14 => {
            let a = eval_bool(text, p, end, shape, slots);
            let b = eval_bool(text, a.next, end, shape, slots);
            logic(op, a, b)
        }
        0x15..=0x16 => {
            let a = eval_int(text, p, end, shape, slots);
            let b = eval_int(text, a.next, end, shape, slots);
            compare(op, a, b)
        }
        0x17 => {
            let v = wide(text[p]);
            plain(0 < slots[shape.variables + shape.matrices + 1 + v], p + 1)
        }
        _ => plain(false, at),
    }
}
