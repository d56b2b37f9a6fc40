// Clauses that are no gates: of a frame's flags, its ties and the initial units. Their variables follow one another, so a first one and a
// number name them.
ghost use Rattle.std.specs.Prelude.{◌≡◌, ◌+◌, ◌<◌, ◌≤◌, ◌++◌, take, if◌then◌else◌};
ghost use Rattle.design.specs.Limits.{max_movers, max_bits};
ghost use Rattle.design.specs.Tree.{truth};
ghost use Rattle.clauses.specs.Literal.{positive as positively, negate as negated};
ghost use Rattle.clauses.specs.Words.{clause_words, words};
ghost use Rattle.clauses.specs.Formula.{variables_from, units_of, against, pairs};
ghost use Rattle.clauses.specs.Writing.{variable_limit, from_code, from_codes, Puts};
ghost use Rattle.clauses.specs.Ready.{TiesPut, AllTiesPut};

use super::gate::{clause1, clause2, clause3};
use super::literal::{negate, next, positive, put_end, put_literal};
use design::limits::{MAX_BITS, MAX_MOVERS, PAIR_BITS};

// The literals of n variables from v on.
pub fn variables(v: u32, n: usize) -> [u32; MAX_BITS]
    requires { n ≤ max_bits }
    ensures { v + n ≤ variable_limit → take n (from_codes result) ≡ variables_from v n }
{
    let mut out = [0u32; MAX_BITS];
    let mut x = v;
    for i in 0..n {
        out[i] = positive(x);
        x = next(x);
    }
    out
}

// The literals of two states of n variables each, from v and from w on.
pub fn two_states(v: u32, w: u32, n: usize) -> [u32; PAIR_BITS]
    requires { n ≤ max_bits }
    ensures { v + n ≤ variable_limit → w + n ≤ variable_limit → take (n + n) (from_codes result) ≡ variables_from v n ++ variables_from w n }
{
    let mut out = [0u32; PAIR_BITS];
    let mut x = v;
    let mut y = w;
    for i in 0..n {
        out[i] = positive(x);
        out[n + i] = positive(y);
        x = next(x);
        y = next(y);
    }
    out
}

// The clause of n variables from v on.
pub fn put_any(buf: &mut [i32], cur: usize, v: u32, n: usize) -> usize
    requires { n ≤ max_movers }
    ensures { v + n ≤ variable_limit → Puts (clause_words (variables_from v n)) buf.old buf.new cur result }
{
    let mut at = cur;
    let mut x = v;
    for _ in 0..n {
        at = put_literal(buf, at, positive(x));
        x = next(x);
    }
    put_end(buf, at)
}

// (-f -h) for each of n variables h from v on.
pub fn put_against(buf: &mut [i32], cur: usize, f: u32, v: u32, n: usize) -> usize
    requires { n ≤ max_movers }
    ensures { f + 1 ≤ variable_limit → v + n ≤ variable_limit → Puts (words (against (positively f) (variables_from v n))) buf.old buf.new cur result }
{
    let nf = negate(positive(f));
    let mut at = cur;
    let mut x = v;
    for _ in 0..n {
        at = clause2(buf, at, nf, negate(positive(x)));
        x = next(x);
    }
    at
}

// (-f -h) for each pair of n variables from v on.
pub fn put_pairs(buf: &mut [i32], cur: usize, v: u32, n: usize) -> usize
    requires { n ≤ max_movers }
    ensures { v + n ≤ variable_limit → Puts (words (pairs (variables_from v n))) buf.old buf.new cur result }
{
    let mut at = cur;
    let mut x = v;
    for left in (0..n).rev() {
        let y = next(x);
        at = put_against(buf, at, x, y, left);
        x = y;
    }
    at
}

// (-f -r b)(-f r -b) for each of n results from r on and bits from b on.
pub fn put_ties(buf: &mut [i32], cur: usize, f: u32, r: u32, b: u32, n: usize) -> usize
    requires { n ≤ max_bits }
    ensures { TiesPut n b buf.old buf.new cur result f r }
{
    let nf = negate(positive(f));
    let mut at = cur;
    let mut x = r;
    let mut y = b;
    for _ in 0..n {
        let p = positive(x);
        let q = positive(y);
        let s = clause3(buf, at, nf, negate(p), q);
        at = clause3(buf, s, nf, p, negate(q));
        x = next(x);
        y = next(y);
    }
    at
}

// The ties of `all` movers: their flags from f on, the first variables of their results, n bits from b on.
pub fn put_all_ties(
    buf: &mut [i32],
    cur: usize,
    f: u32,
    all: usize,
    firsts: &[u32; MAX_MOVERS],
    b: u32,
    n: usize,
) -> usize
    requires { (all ≤ max_movers) × (n ≤ max_bits) }
    ensures { AllTiesPut n b buf.old buf.new cur result f all firsts.now }
{
    let mut at = cur;
    let mut x = f;
    for first in &firsts[..all] {
        at = put_ties(buf, at, x, *first, b, n);
        x = next(x);
    }
    at
}

// The units that give n variables from v on the bits of a value.
pub fn put_units(buf: &mut [i32], cur: usize, v: u32, n: usize, value: usize) -> usize
    requires { n ≤ max_bits }
    ensures { v + n ≤ variable_limit → Puts (words (units_of (variables_from v n) value)) buf.old buf.new cur result }
{
    let mut at = cur;
    let mut x = v;
    let mut y = value;
    for _ in 0..n {
        at = clause1(buf, at, signed_by(x, y % 2));
        x = next(x);
        y /= 2;
    }
    at
}

// A variable's literal, negative for the bit 0.
pub fn signed_by(v: u32, bit: usize) -> u32
    ensures { v + 1 ≤ variable_limit → from_code result ≡ (if truth bit then positively v else negated (positively v)) }
{
    if bit == 0 {
        negate(positive(v))
    } else {
        positive(v)
    }
}
