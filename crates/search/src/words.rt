// The words of a clause list: "Literals are i32, a clause ends with 0."
ghost use Rattle.std.specs.Prelude.{◌≡◌, false, ◌<◌, nat_abs, pos, length, get_or};
ghost use Rattle.clauses.specs.Words.{is_end};
ghost use Rattle.search.specs.Solve.{bad_word};
ghost use Rattle.search.specs.Memory.{sign_of};

// Whether a word ends its clause.
pub fn ends(words: &[i32], at: usize) -> bool
    requires { at < length words.now }
    ensures { result ≡ is_end (get_or words.now at (pos 0)) }
{
    words[at] == 0
}

// The variable that a word names.
pub fn variable(words: &[i32], at: usize) -> usize
    requires { at < length words.now }
    ensures { result ≡ nat_abs (get_or words.now at (pos 0)) }
{
    words[at].unsigned_abs() as usize
}

// The value that makes a word's literal true.
pub fn sign(words: &[i32], at: usize) -> u8
    requires { at < length words.now }
    ensures { result ≡ sign_of (get_or words.now at (pos 0)) }
{
    if words[at] < 0 { 0 } else { 1 }
}

// Where a word list is refused: the first word outside -n..n, or the length if the last clause does not end.
pub fn bad_word(n: u64, words: &[i32]) -> Option<usize>
    ensures { result ≡ bad_word n 0 false words.now }
{
    let mut begun = false;
    for i in 0..words.len() {
        if variable(words, i) as u64 > n {
            return Some(i);
        }
        begun = !ends(words, i);
    }
    begun.then_some(words.len())
}
