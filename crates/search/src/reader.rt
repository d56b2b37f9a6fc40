// A clause list, read forward, one clause at a time.
ghost use Rattle.std.specs.Prelude.{◌≡◌, true, drop};
ghost use Rattle.search.specs.Memory.{has_end, Past};

use super::words::ends;

// The words, and the place of the next one to read.
#[derive(Clone, Copy)]
pub struct Reader<'a> {
    words: &'a [i32],
    at: usize,
}

impl<'a> Reader<'a> {
    // A reader at a place.
    pub fn new(words: &'a [i32], at: usize) -> Self
        ensures { (result.words ≡ words.entry) × (result.at ≡ at) }
    {
        Reader { words, at }
    }

    // Past the clause that it stands in.
    pub fn next_clause(self) -> Self
        requires { has_end (drop self.at self.words.now) ≡ true }
        ensures { (result.words ≡ self.entry.words) × Past self.entry.words.now self.entry.at result.at }
    {
        Reader {
            words: self.words,
            at: past_clause(self.words, self.at),
        }
    }

    // Where it stands.
    pub fn place(self) -> usize
        ensures { result ≡ self.entry.at }
    {
        self.at
    }
}

// The place past the clause that holds `from`.
fn past_clause(words: &[i32], from: usize) -> usize
    requires { has_end (drop from words.now) ≡ true }
    ensures { Past words.now from result }
{
    // Kept: a word ends the clause, not a count; with a `for` the search was slower.
    let mut i = from;
    while !ends(words, i) {
        i += 1;
    }
    i + 1
}

// The place past the clause that holds `from`, by a reader; its callers name no reader.
pub fn after_clause(words: &[i32], from: usize) -> usize
    requires { has_end (drop from words.now) ≡ true }
    ensures { Past words.now from result }
{
    Reader::new(words, from).next_clause().place()
}
