// What the clause-printing program prints, part by part, into a lent buffer.
ghost use Rattle.std.specs.Prelude.{◌≡◌, ◌+◌, ◌-◌, ◌*◌, ◌≤◌, ◌<◌, pos, length, get_or};
ghost use Rattle.step.specs.Piece.{no_piece};
ghost use Rattle.clauses.specs.Encode.{words_to_write};
ghost use Rattle.text.specs.Text.{TextWritten};
ghost use Rattle.text.specs.Listing.{max_words, max_part_text, word_text, words_text, words_to_print, printed, is_refused, clauses_text, part_text, part_of_input, joined};

use super::input::design_end;
use super::writer::Writer;
use clauses::encode::encode;
use design::refusal::Refused;
use search::words::ends;

// The longest part that is printed, in words.
pub const MAX_WORDS: usize = 16384;

// Its text: 22 bytes for a word.
pub const MAX_TEXT: usize = 22 * MAX_WORDS;

// The parts that are printed: from first up to end. Kept: it is copied, and std's Range is not Copy.
#[derive(Clone, Copy)]
pub struct PartRange {
    pub first: u64,
    pub end: u64,
}

impl<'a> Writer<'a> {
    // A word, and a newline after a 0, a space after any other.
    fn word(&mut self, words: &[i32], i: usize)
        requires { (self.old.at + 22 ≤ length self.old.out.now) × (i < length words.now) }
        ensures same { self.new.out.ghost_name ≡ self.old.out.ghost_name }
        ensures text { TextWritten (word_text (get_or words.now i (pos 0))) self.old.out.now self.new.out.now self.old.at self.new.at }
        ensures near { self.new.at ≤ self.old.at + 22 }
    {
        self.signed(words, i);
        if ends(words, i) {
            return self.byte(b'\n');
        }
        self.byte(b' ');
    }

    // The text of words.
    fn words(&mut self, words: &[i32])
        requires { self.old.at + 22 * length words.now ≤ length self.old.out.now }
        ensures same { self.new.out.ghost_name ≡ self.old.out.ghost_name }
        ensures text { TextWritten (words_text words.now) self.old.out.now self.new.out.now self.old.at self.new.at }
        ensures near { self.new.at ≤ self.old.at + 22 * length words.now }
    {
        for i in 0..words.len() {
            self.word(words, i);
        }
    }

    // The text of a part, or ENCODE's refusal.
    fn part(&mut self, file: &[u8], property: u8, bound: u8, part: u64, words: &mut [i32])
        requires { (length words.old ≡ max_words) × (self.old.at + max_part_text ≤ length self.old.out.now) }
        ensures same { self.new.out.ghost_name ≡ self.old.out.ghost_name }
        ensures text { TextWritten (part_text file.now property bound part) self.old.out.now self.new.out.now self.old.at self.new.at }
        ensures near { self.new.at ≤ self.old.at + max_part_text }
    {
        match encode(file, b"", property as u64, bound as u64, part, words) {
            Err(refusal) => self.refused(refusal),
            Ok(count) => {
                let n = count as usize;
                self.words(&words[..n]);
            }
        }
    }

    // The text of one of the parts that are printed for the input.
    fn part_of(&mut self, input: &[u8], part: u64, words: &mut [i32])
        requires { (length words.old ≡ max_words) × (self.old.at + max_part_text ≤ length self.old.out.now) }
        ensures same { self.new.out.ghost_name ≡ self.old.out.ghost_name }
        ensures text { TextWritten (part_of_input input.now part) self.old.out.now self.new.out.now self.old.at self.new.at }
        ensures near { self.new.at ≤ self.old.at + max_part_text }
    {
        if input.len() < 2 {
            return self.refused(Refused::Length(0));
        }
        let end = design_end(input, 2);
        self.part(&input[2..end], input[0], input[1], part, words);
    }
}

// Whether ENCODE refuses a part.
fn refuses(file: &[u8], property: u8, bound: u8, part: u64, words: &mut [i32]) -> bool
    ensures { result ≡ is_refused (words_to_write file.now no_piece property bound part (length words.old)) }
{
    encode(file, b"", property as u64, bound as u64, part, words).is_err()
}

// All parts, or the first that is refused.
fn printed_parts(file: &[u8], property: u8, bound: u8, words: &mut [i32]) -> PartRange
    requires { length words.old ≡ max_words }
    ensures { printed (words_to_print file.now property bound) ≡ joined (part_text file.now property bound) (result.end - result.first) result.first }
{
    let end = (bound as u64) + 3;
    for i in 0..end {
        if refuses(file, property, bound, i, words) {
            return PartRange {
                first: i,
                end: i + 1,
            };
        }
    }
    PartRange { first: 0, end }
}

// The parts whose texts, one after the other, are all that is printed for the input.
pub fn parts_of(input: &[u8], words: &mut [i32]) -> PartRange
    requires { length words.old ≡ max_words }
    ensures { clauses_text input.now ≡ joined (part_of_input input.now) (result.end - result.first) result.first }
{
    if input.len() < 2 {
        return PartRange { first: 0, end: 1 };
    }
    let end = design_end(input, 2);
    printed_parts(&input[2..end], input[0], input[1], words)
}

// The text of one of these parts, at the front.
pub fn put_part_of(input: &[u8], part: u64, words: &mut [i32], out: &mut [u8]) -> usize
    requires { (length words.old ≡ max_words) × (max_part_text ≤ length out.old) }
    ensures { TextWritten (part_of_input input.now part) out.old out.new 0 result × (result ≤ max_part_text) }
{
    let mut text = Writer { out, at: 0 };
    text.part_of(input, part, words);
    text.at
}
