// REFUTE: whether every clause of a refutation follows from a clause list and the clauses before it, up to an empty one.
ghost use Rattle.std.specs.Prelude.{◌≡◌, true, ◌+◌, ◌^◌, ◌<◌, length, drop, replicate};
ghost use Rattle.design.specs.Answer.{told};
ghost use Rattle.clauses.specs.Words.{clauses_of};
ghost use Rattle.search.specs.Refutation.{judged, refute as refute_of};
ghost use Rattle.search.specs.Memory.{AllIn, has_end, first_clause, Starts, value_at, AllUnset, Finds, Denied, Two, StartsAfter, StartsTwo, clauses_from, both_of, ReadTo, Reaches, follows_at};

use super::MAX_VARIABLE;
use super::reader::after_clause;
use super::scan::{Found, scan_from};
use super::words::{bad_word, ends, sign, variable};
use design::refusal::Refused;

// Every clause follows up to an empty one; the word at which the first clause begins that does not; or no empty clause.
#[derive(Clone, Copy)]
pub enum Judged {
    Accepted,
    Word(usize),
    Ended,
}

// Sets the literals of the clause at `from` false, where all values are unset. It is left with true at a literal that an
// earlier one has made true: the clause holds a literal and its negation.
pub fn deny(words: &[i32], values: &mut [u8], from: usize) -> bool
    requires { AllIn (length values.old) words.now × AllUnset values.old × (has_end (drop from words.now) ≡ true) }
    ensures { Denied (first_clause (drop from words.now)) result values.new }
{
    for i in from..words.len() {
        if ends(words, i) {
            break;
        }
        let v = variable(words, i);
        let x = sign(words, i);
        if values[v - 1] == x {
            return true;
        }
        values[v - 1] = 1 - x;
    }
    false
}

// The scan of the clauses from `from` on, with `base` added to the place that comes with a unit.
pub fn scan_after(words: &[i32], values: &[u8], from: usize, base: usize) -> Found
    requires { AllIn (length values.now) words.now × Starts words.now from × (base + length words.now < 2 ^ 64) }
    ensures { Finds (StartsAfter base words.now) (value_at values.now) (clauses_of (drop from words.now)) result }
{
    match scan_from(words, values, from) {
        Found::Unit { var, value, next } => Found::Unit {
            var,
            value,
            next: base + next,
        },
        found => found,
    }
}

// The scan of two lists, one after the other, from a place on: places in the second count on from the first's length.
pub fn scan_two(list: &[i32], earlier: &[i32], values: &[u8], from: usize) -> Found
    requires { Two (length values.now) list.now earlier.now × StartsTwo list.now earlier.now from }
    ensures { Finds (StartsTwo list.now earlier.now) (value_at values.now) (clauses_from list.now earlier.now from) result }
{
    let here = list.len();
    if from >= here {
        return scan_after(earlier, values, from - here, here);
    }
    match scan_from(list, values, from) {
        Found::Nothing => scan_after(earlier, values, 0, here),
        found => found,
    }
}

// The same among all clauses of both, those from `from` on first: as in the search, a scan goes on where the last unit
// was found.
pub fn scan_round(list: &[i32], earlier: &[i32], values: &[u8], from: usize) -> Found
    requires { Two (length values.now) list.now earlier.now × StartsTwo list.now earlier.now from }
    ensures { Finds (StartsTwo list.now earlier.now) (value_at values.now) (both_of list.now earlier.now) result }
{
    match scan_two(list, earlier, values, from) {
        Found::Nothing if from > 0 => scan_two(list, earlier, values, 0),
        found => found,
    }
}

// Whether unit setting over both lists, from the values given, reaches a clause that is all false.
pub fn reaches(list: &[i32], earlier: &[i32], values: &mut [u8]) -> bool
    requires { Two (length values.old) list.now earlier.now }
    ensures { Reaches (both_of list.now earlier.now) values.old result }
{
    let mut from: usize = 0;
    // Kept: it ends when a scan finds no unit, and counts nothing.
    loop {
        match scan_round(list, earlier, values, from) {
            Found::Nothing => return false,
            Found::Conflict => return true,
            Found::Unit { var, value, next } => {
                values[var - 1] = value;
                from = next;
            }
        }
    }
}

// Whether the clause that starts at a place of the refutation follows from the list and from the clauses before it.
pub fn follows(list: &[i32], refutation: &[i32], at: usize, values: &mut [u8]) -> bool
    requires { Two (length values.old) list.now refutation.now × ReadTo refutation.now at × (at < length refutation.now) }
    ensures { result ≡ follows_at (length values.old) list.now refutation.now at }
{
    values.fill(2);
    if deny(refutation, values, at) {
        return true;
    }
    reaches(list, &refutation[..at], values)
}

// The refutation, clause by clause.
pub fn read(list: &[i32], refutation: &[i32], values: &mut [u8]) -> Judged
    requires { Two (length values.old) list.now refutation.now }
    ensures { result ≡ judged (length values.old) 0 (clauses_of list.now) (clauses_of refutation.now) }
{
    let mut at: usize = 0;
    // Kept: `at` goes from clause to clause, and what has been read is told by it.
    while at < refutation.len() {
        if !follows(list, refutation, at, values) {
            return Judged::Word(at);
        }
        if ends(refutation, at) {
            return Judged::Accepted;
        }
        at = after_clause(refutation, at);
    }
    Judged::Ended
}

// What the refutation comes to, on just n values, which are 0 then.
pub fn judge(list: &[i32], refutation: &[i32], values: &mut [u8]) -> Judged
    requires { Two (length values.old) list.now refutation.now }
    ensures { (result ≡ judged (length values.old) 0 (clauses_of list.now) (clauses_of refutation.now))
        × (values.new ≡ replicate (length values.old) 0) }
{
    let found = read(list, refutation, values);
    values.fill(0);
    found
}

// REFUTE: n variables, the clauses and the refutation as words, and memory for values.
pub fn refute(
    n: u64,
    list: &[i32],
    refutation: &[i32],
    values: &mut [u8],
) -> Result<Judged, Refused>
    ensures { record { reply = told result; values = values.new } ≡ refute_of n list.now refutation.now values.old }
{
    if n > MAX_VARIABLE {
        return Err(Refused::Clauses(0));
    }
    if let Some(i) = bad_word(n, list) {
        return Err(Refused::Clauses(i));
    }
    if let Some(i) = bad_word(n, refutation) {
        return Err(Refused::Clauses(list.len() + i));
    }
    let k = n as usize;
    if values.len() < k {
        return Err(Refused::Memory);
    }
    Ok(judge(list, refutation, &mut values[..k]))
}
