// Gates, document 01's clauses in its order, into a lent buffer.
ghost use Rattle.std.specs.Prelude.{◌≡◌, [], ◌∷◌};
ghost use Rattle.clauses.specs.Words.{clause_words};
ghost use Rattle.clauses.specs.Circuit.{and!, xor!, mux!, or! };
ghost use Rattle.clauses.specs.Writing.{from_code, Puts};
ghost use Rattle.clauses.specs.Encoders.{Gives};

use super::literal::{negate, next, positive, put_end, put_literal};

// Where a writer stands: at the place of the next word in the buffer, and before the next variable.
#[derive(Clone, Copy)]
pub struct Cursor {
    pub cur: usize,
    pub var: u32,
}

// A writer of an expression's gates: where it stands, whether what it writes marks, and the mark so far.
#[derive(Clone, Copy)]
pub struct Pen {
    pub at: Cursor,
    pub marks: bool,
    pub mark: u32,
}

// What gates give, as a literal or a word of them, and where the writer stands after them.
#[derive(Clone, Copy)]
pub struct Out<T> {
    pub value: T,
    pub pen: Cursor,
}

// The pen further on, with the same mark.
pub fn moved(pen: Pen, at: Cursor) -> Pen
    ensures { (result.at ≡ at) × (result.marks ≡ pen.marks) × (result.mark ≡ pen.mark) }
{
    Pen { at, ..pen }
}

pub fn clause1(buf: &mut [i32], cur: usize, a: u32) -> usize
    ensures { Puts (clause_words (from_code a ∷ [])) buf.old buf.new cur result }
{
    let p = put_literal(buf, cur, a);
    put_end(buf, p)
}

pub fn clause2(buf: &mut [i32], cur: usize, a: u32, b: u32) -> usize
    ensures { Puts (clause_words (from_code a ∷ from_code b ∷ [])) buf.old buf.new cur result }
{
    let p = put_literal(buf, cur, a);
    clause1(buf, p, b)
}

pub fn clause3(buf: &mut [i32], cur: usize, a: u32, b: u32, c: u32) -> usize
    ensures { Puts (clause_words (from_code a ∷ from_code b ∷ from_code c ∷ [])) buf.old buf.new cur result }
{
    let p = put_literal(buf, cur, a);
    clause2(buf, p, b, c)
}

// (-g a)(-g b)(g -a -b)
pub fn emit_and(buf: &mut [i32], pen: Cursor, a: u32, b: u32) -> Out<u32>
    ensures { Gives pen (and! (from_code a) (from_code b)) buf.old buf.new result }
{
    let g = positive(pen.var);
    let ng = negate(g);
    let na = negate(a);
    let nb = negate(b);
    let p = clause2(buf, pen.cur, ng, a);
    let q = clause2(buf, p, ng, b);
    let s = clause3(buf, q, g, na, nb);
    Out {
        value: g,
        pen: Cursor {
            cur: s,
            var: next(pen.var),
        },
    }
}

// (-g a b)(-g -a -b)(g -a b)(g a -b)
pub fn emit_xor(buf: &mut [i32], pen: Cursor, a: u32, b: u32) -> Out<u32>
    ensures { Gives pen (xor! (from_code a) (from_code b)) buf.old buf.new result }
{
    let g = positive(pen.var);
    let ng = negate(g);
    let na = negate(a);
    let nb = negate(b);
    let p = clause3(buf, pen.cur, ng, a, b);
    let q = clause3(buf, p, ng, na, nb);
    let s = clause3(buf, q, g, na, b);
    let t = clause3(buf, s, g, a, nb);
    Out {
        value: g,
        pen: Cursor {
            cur: t,
            var: next(pen.var),
        },
    }
}

// (-c -a g)(-c a -g)(c -b g)(c b -g)
pub fn emit_mux(buf: &mut [i32], pen: Cursor, c: u32, a: u32, b: u32) -> Out<u32>
    ensures { Gives pen (mux! (from_code c) (from_code a) (from_code b)) buf.old buf.new result }
{
    let g = positive(pen.var);
    let ng = negate(g);
    let nc = negate(c);
    let na = negate(a);
    let nb = negate(b);
    let p = clause3(buf, pen.cur, nc, na, g);
    let q = clause3(buf, p, nc, a, ng);
    let s = clause3(buf, q, c, nb, g);
    let t = clause3(buf, s, c, b, ng);
    Out {
        value: g,
        pen: Cursor {
            cur: t,
            var: next(pen.var),
        },
    }
}

// or(a,b) is -and(-a,-b)
pub fn emit_or(buf: &mut [i32], pen: Cursor, a: u32, b: u32) -> Out<u32>
    ensures { Gives pen (or! (from_code a) (from_code b)) buf.old buf.new result }
{
    let na = negate(a);
    let nb = negate(b);
    let x = emit_and(buf, pen, na, nb);
    Out {
        value: negate(x.value),
        pen: x.pen,
    }
}
