// How many gates expressions and actions have, over the bytes: a decision over the operator byte, with ranges for operators of one shape.
// In every function: what is read starts at `at`, does not pass `end`, and the reader accepts it. An expression stands in `text`; the reader has
// seen its variables' kinds, in whatever file they stand, and its depth: neither is needed again. A statement stands in the file that has the kinds.
ghost use Rattle.std.specs.Prelude.{◌≡◌, ℕ, ◌+◌, ◌*◌, ◌<◌, ◌≤◌, Bool, true, List, length};
ghost use Rattle.design.specs.Limits.{max_bytes, max_bits};
ghost use Rattle.design.specs.Expression.{with_later, int_expr, bool_expr};
ghost use Rattle.design.specs.Action.{assignment, statement, list};
ghost use Rattle.design.specs.Check.{names_of};
ghost use Rattle.step.specs.Accepted.{is_read};
ghost use Rattle.clauses.specs.Cost.{add_costs, sum_cost, product_cost, sum_mark_cost, product_mark_cost, int_cost, bool_cost};
ghost use Rattle.clauses.specs.FrameSizes.{no_gates, gates_at, both, more as more_of, both_with, more_with, FewGates, stmt_gates, list_gates};
ghost use Rattle.clauses.specs.Limits.{text_gates};

use design::bytes::wide;
use design::kind::Kind;
use design::shape::Shape;

// The gates of a sum, a difference or less, of 16 bits; of equal; and of a product, which is 16 sums.
const SUM_ANDS: u64 = 48;

const SUM_WIDES: u64 = 32;

const EQUAL_ANDS: u64 = 16;

const EQUAL_WIDES: u64 = 16;

const PRODUCT_ANDS: u64 = 16 * SUM_ANDS;

const PRODUCT_WIDES: u64 = 16 * SUM_WIDES;

// What a product that marks has more: less twice, and two ors. A sum or difference has an xor and an or.
const PRODUCT_MARK_ANDS: u64 = 2 * SUM_ANDS + 2;

const PRODUCT_MARK_WIDES: u64 = 2 * SUM_WIDES;

// Gates by kind, and the position past what they are built from. `wides` are xors and muxes.
#[derive(Clone, Copy)]
pub struct GatesAt {
    pub ands: u64,
    pub wides: u64,
    pub next: usize,
}

// No gates; the position is past what has none.
pub fn no_gates(next: usize) -> GatesAt
    ensures { result ≡ no_gates next }
{
    GatesAt {
        ands: 0,
        wides: 0,
        next,
    }
}

// One after the other, and so many gates more.
pub fn join(a: GatesAt, b: GatesAt, ands: u64, wides: u64) -> GatesAt
    requires { (a.ands + b.ands + ands < 18446744073709551616) × (a.wides + b.wides + wides < 18446744073709551616) }
    ensures { result ≡ both a b ands wides }
{
    GatesAt {
        ands: a.ands + b.ands + ands,
        wides: a.wides + b.wides + wides,
        next: b.next,
    }
}

// So many gates more.
pub fn more(a: GatesAt, ands: u64, wides: u64) -> GatesAt
    requires { (a.ands + ands < 18446744073709551616) × (a.wides + wides < 18446744073709551616) }
    ensures { result ≡ more_of a ands wides }
{
    GatesAt {
        ands: a.ands + ands,
        wides: a.wides + wides,
        next: a.next,
    }
}

// A sum or difference, of its operands' gates.
pub fn size_sum(a: GatesAt, b: GatesAt, marks: bool) -> GatesAt
    requires { FewGates text_gates a × FewGates text_gates b }
    ensures { result ≡ both_with a b (add_costs sum_cost (sum_mark_cost marks)) }
{
    let mark = u64::from(marks);
    join(a, b, SUM_ANDS + mark, SUM_WIDES + mark)
}

// A product, of its operand's gates.
pub fn size_product(a: GatesAt, marks: bool) -> GatesAt
    requires { FewGates text_gates a }
    ensures { result ≡ more_with a (add_costs product_cost (product_mark_cost marks)) }
{
    let mark = u64::from(marks);
    more(
        a,
        PRODUCT_ANDS + mark * PRODUCT_MARK_ANDS,
        PRODUCT_WIDES + mark * PRODUCT_MARK_WIDES,
    )
}

// The integer expression at `at`. `marks` says whether its sums, differences and products mark: those of statements and conditions do.
pub fn size_int(text: &[u8], at: usize, end: usize, shape: Shape, marks: bool) -> GatesAt
    requires { ((file : List ℕ) × (depth : ℕ) × (later : Bool) × (is_read (int_expr text.now (with_later later (names_of file shape)) end depth at) ≡ true))
        × (end ≤ length text.now) × (end ≤ max_bytes) }
    ensures { (file : List ℕ) (depth : ℕ) (later : Bool) → is_read (int_expr text.now (with_later later (names_of file shape)) end depth at) ≡ true
        → result ≡ gates_at (int_cost marks) (int_expr text.now (with_later later (names_of file shape)) end depth at) }
{
    let op = text[at];
    match op {
        0x01 => no_gates(at + 3),
        0x02..=0x03 => no_gates(at + 2),
        0x04..=0x05 => {
            let a = size_int(text, at + 1, end, shape, marks);
            let b = size_int(text, a.next, end, shape, marks);
            size_sum(a, b, marks)
        }
        0x06..=0x07 => no_gates(at + 2),
        0x08 => {
            let a = size_int(text, at + 3, end, shape, marks);
            size_product(a, marks)
        }
        _ => no_gates(at),
    }
}

// The Boolean expression at `at`.
pub fn size_bool(text: &[u8], at: usize, end: usize, shape: Shape, marks: bool) -> GatesAt
    requires { ((file : List ℕ) × (depth : ℕ) × (later : Bool) × (is_read (bool_expr text.now (with_later later (names_of file shape)) end depth at) ≡ true))
        × (end ≤ length text.now) × (end ≤ max_bytes) }
    ensures { (file : List ℕ) (depth : ℕ) (later : Bool) → is_read (bool_expr text.now (with_later later (names_of file shape)) end depth at) ≡ true
        → result ≡ gates_at (bool_cost marks) (bool_expr text.now (with_later later (names_of file shape)) end depth at) }
{
    let op = text[at];
    match op {
        0x10..=0x11 => no_gates(at + 2),
        0x12 => size_bool(text, at + 1, end, shape, marks),
        0x13..=0x14 => {
            let a = size_bool(text, at + 1, end, shape, marks);
            let b = size_bool(text, a.next, end, shape, marks);
            join(a, b, 1, 0)
        }
        0x15..=0x16 => {
            let a = size_int(text, at + 1, end, shape, marks);
            let b = size_int(text, a.next, end, shape, marks);
            if op == 0x15 {
                join(a, b, EQUAL_ANDS, EQUAL_WIDES)
            } else {
                join(a, b, SUM_ANDS, SUM_WIDES)
            }
        }
        0x17 => no_gates(at + 2),
        _ => no_gates(at),
    }
}

// What follows the operator byte of an assignment.
pub fn size_assign(file: &[u8], at: usize, end: usize, shape: Shape) -> GatesAt
    requires readable { is_read (assignment file.now (names_of file.now shape) end at) ≡ true }
    requires in_bounds { (end ≤ length file.now) × (end ≤ max_bytes) × (3 * shape.variables ≤ length file.now) }
    ensures { (bits : ℕ) → result ≡ stmt_gates bits (assignment file.now (names_of file.now shape) end at) }
{
    let v = wide(file[at]);
    let k = file[3 * v];
    if k == Kind::Integer as u8 {
        size_int(file, at + 1, end, shape, true)
    } else {
        size_bool(file, at + 1, end, shape, true)
    }
}

// The statement at `at`; an if ends in a mux for each of the state's bits.
#[cycle(size_list_size_stmt)]
pub fn size_stmt(file: &[u8], at: usize, end: usize, shape: Shape, nest: usize) -> GatesAt
    requires readable { is_read (statement file.now (names_of file.now shape) end nest at) ≡ true }
    requires in_bounds { (end ≤ length file.now) × (end ≤ max_bytes) × (3 * shape.variables ≤ length file.now) × (shape.bits ≤ max_bits) }
    ensures { result ≡ stmt_gates shape.bits (statement file.now (names_of file.now shape) end nest at) }
{
    let op = file[at];
    match op {
        0x20..=0x21 => {
            if op == 0x20 {
                return size_assign(file, at + 1, end, shape);
            }
            let c = size_bool(file, at + 1, end, shape, true);
            let a = size_list(file, c.next, end, shape, nest - 1);
            let b = size_list(file, a.next, end, shape, nest - 1);
            join(join(c, a, 0, 0), b, 0, shape.bits as u64)
        }
        _ => no_gates(at),
    }
}

// The list at `at`.
#[cycle(size_list_size_stmt)]
pub fn size_list(file: &[u8], at: usize, end: usize, shape: Shape, nest: usize) -> GatesAt
    requires readable { is_read (list file.now (names_of file.now shape) end nest at) ≡ true }
    requires in_bounds { (end ≤ length file.now) × (end ≤ max_bytes) × (3 * shape.variables ≤ length file.now) × (shape.bits ≤ max_bits) }
    ensures { result ≡ list_gates shape.bits (list file.now (names_of file.now shape) end nest at) }
{
    let mut sum = no_gates(at + 1);
    for _ in 0..file[at] {
        let x = size_stmt(file, sum.next, end, shape, nest);
        sum = join(sum, x, 0, 0);
    }
    sum
}
