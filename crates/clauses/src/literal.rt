// Literals as codes, 2v for v and 2v + 1 for -v, and their words in a lent buffer. Only `signed` and `store` know signed words.
ghost use Rattle.std.specs.Prelude.{◌≡◌, ◌+◌, ◌<◌, [], ◌∷◌, pos};
ghost use Rattle.clauses.specs.Literal.{negate as negated, positive as positively};
ghost use Rattle.clauses.specs.Words.{word_of};
ghost use Rattle.clauses.specs.Writing.{variable_limit, word_limit, from_code, Puts};

pub const TRUE: u32 = 2;

pub const FALSE: u32 = 3;

// The greatest variable that a clause may name.
pub const LAST_VARIABLE: u32 = 2147483647;

// No variable reaches this number, nor a cursor the other: what does stays there.
const VARIABLE_LIMIT: u32 = LAST_VARIABLE + 1;

const WORD_LIMIT: usize = 4611686018427387904;

pub fn negate(l: u32) -> u32
    ensures { from_code result ≡ negated (from_code l) }
{
    if l % 2 == 0 { l + 1 } else { l - 1 }
}

// The literal of a variable.
pub fn positive(v: u32) -> u32
    ensures { v < variable_limit → from_code result ≡ positively v }
{
    if v < VARIABLE_LIMIT { v * 2 } else { TRUE }
}

// The variable after one.
pub fn next(v: u32) -> u32
    ensures { v < variable_limit → result ≡ v + 1 }
{
    if v < VARIABLE_LIMIT { v + 1 } else { v }
}

fn signed(l: u32) -> i32
    ensures { result ≡ word_of (from_code l) }
{
    let v = (l / 2) as i32;
    if l % 2 == 0 { v } else { -v }
}

fn advance(cur: usize) -> usize
    ensures { cur < word_limit → result ≡ cur + 1 }
{
    if cur < WORD_LIMIT { cur + 1 } else { cur }
}

// The one function that writes a word. A word that the buffer has no place for is left out.
fn store(buf: &mut [i32], cur: usize, word: i32) -> usize
    ensures { Puts (word ∷ []) buf.old buf.new cur result }
{
    if cur < buf.len() {
        buf[cur] = word;
    }
    advance(cur)
}

pub fn put_literal(buf: &mut [i32], cur: usize, l: u32) -> usize
    ensures { Puts (word_of (from_code l) ∷ []) buf.old buf.new cur result }
{
    store(buf, cur, signed(l))
}

// The end of a clause.
pub fn put_end(buf: &mut [i32], cur: usize) -> usize
    ensures { Puts (pos 0 ∷ []) buf.old buf.new cur result }
{
    store(buf, cur, 0)
}
