// The scan for a clause that is all false, or has no true literal and one unset position.
ghost use Rattle.std.specs.Prelude.{◌≡◌, true, pos, length, get_or, drop};
ghost use Rattle.clauses.specs.Words.{literal_of_word, clauses_of};
ghost use Rattle.search.specs.Search.{literal_value};
ghost use Rattle.search.specs.Memory.{AllIn, closed, Starts, value_at, known, Finds, Named};

use super::reader::after_clause;
use super::words::{ends, sign, variable};

// What a scan finds: no such clause, one that is all false, or a unit: its variable, the value that makes its literal
// true, and the place past its clause.
#[derive(Clone, Copy)]
pub enum Found {
    Nothing,
    Conflict,
    Unit { var: usize, value: u8, next: usize },
}

// The value of the literal at a place: none where it is unset.
pub fn literal(words: &[i32], values: &[u8], at: usize) -> Option<bool>
    requires { Named words.now (length values.now) at }
    ensures { result ≡ known (literal_value (value_at values.now) (literal_of_word (get_or words.now at (pos 0)))) }
{
    let v = variable(words, at);
    let x = values[v - 1];
    if x > 1 {
        None
    } else {
        Some(sign(words, at) == x)
    }
}

// The first clause from `from` on that is all false, or has no true literal and one unset position. The scan is left
// there; a clause is left at its first true literal and at its second unset position, which settle that it is neither.
pub fn scan_from(words: &[i32], values: &[u8], from: usize) -> Found
    requires { AllIn (length values.now) words.now × Starts words.now from }
    ensures { Finds (Starts words.now) (value_at values.now) (clauses_of (drop from words.now)) result }
{
    let mut i = from;
    // Kept: `i` goes by clauses and is left inside one; an iterator of clauses would read the clause again.
    'clauses: while i < words.len() {
        let mut unset = None;
        while !ends(words, i) {
            match literal(words, values, i) {
                Some(false) => {}
                None if unset.is_none() => unset = Some(i),
                _ => {
                    i = after_clause(words, i);
                    continue 'clauses;
                }
            }
            i += 1;
        }
        return match unset {
            None => Found::Conflict,
            Some(at) => Found::Unit {
                var: variable(words, at),
                value: sign(words, at),
                next: i + 1,
            },
        };
    }
    Found::Nothing
}

// The same among all clauses, those from `from` on first: units may be set in any order (specs/AnyOrder.antt), so a scan
// goes on where the last unit was found.
pub fn scan(words: &[i32], values: &[u8], from: usize) -> Found
    requires { AllIn (length values.now) words.now × Starts words.now from × (closed words.now ≡ true) }
    ensures { Finds (Starts words.now) (value_at values.now) (clauses_of words.now) result }
{
    match scan_from(words, values, from) {
        Found::Nothing if from > 0 => scan_from(words, values, 0),
        found => found,
    }
}
