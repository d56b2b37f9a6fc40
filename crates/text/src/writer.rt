// Text that is written into a lent buffer: bytes and numbers.
ghost use Rattle.std.specs.Prelude.{◌≡◌, [], ◌∷◌, ◌+◌, ◌≤◌, ◌<◌, pos, length, get_or};
ghost use Rattle.step.specs.Pattern.{signed};
ghost use Rattle.text.specs.Text.{digits, decimal, signed_text, TextWritten};

use search::words::{sign, variable};

// A lent buffer and the place at which its text goes on. Each method leaves the same buffer in it (clause `same`): its last value is what the lender gets back.
#[derive(Drop)]
pub struct Writer<'a> {
    pub out: &'a mut [u8],
    pub at: usize,
}

impl<'a> Writer<'a> {
    // A byte.
    pub(crate) fn byte(&mut self, b: u8)
        requires { self.old.at < length self.old.out.now }
        ensures same { self.new.out.ghost_name ≡ self.old.out.ghost_name }
        ensures text { TextWritten (b ∷ []) self.old.out.now self.new.out.now self.old.at self.new.at }
    {
        self.out[self.at] = b;
        self.at += 1;
    }

    // The bytes, one after the other.
    pub(crate) fn bytes(&mut self, bytes: &[u8])
        requires { self.old.at + length bytes.now ≤ length self.old.out.now }
        ensures same { self.new.out.ghost_name ≡ self.old.out.ghost_name }
        ensures text { TextWritten bytes.now self.old.out.now self.new.out.now self.old.at self.new.at }
    {
        for b in bytes {
            self.byte(*b);
        }
    }

    // At most `left` decimal digits of n.
    pub(crate) fn digits(&mut self, n: usize, left: usize)
        requires { self.old.at + left ≤ length self.old.out.now }
        ensures same { self.new.out.ghost_name ≡ self.old.out.ghost_name }
        ensures text { TextWritten (digits left n) self.old.out.now self.new.out.now self.old.at self.new.at }
    {
        if left == 0 {
            return;
        }
        if n < 10 {
            self.byte(b'0' + n as u8);
            return;
        }
        self.digits(n / 10, left - 1);
        self.byte(b'0' + (n % 10) as u8);
    }

    // A number: 20 digits are enough for any usize.
    pub(crate) fn decimal(&mut self, n: usize)
        requires { self.old.at + 20 ≤ length self.old.out.now }
        ensures same { self.new.out.ghost_name ≡ self.old.out.ghost_name }
        ensures text { TextWritten (decimal n) self.old.out.now self.new.out.now self.old.at self.new.at }
        ensures near { self.new.at ≤ self.old.at + 20 }
    {
        self.digits(n, 20);
    }

    // The integer that stands at `i`.
    pub(crate) fn signed(&mut self, words: &[i32], i: usize)
        requires { (self.old.at + 21 ≤ length self.old.out.now) × (i < length words.now) }
        ensures same { self.new.out.ghost_name ≡ self.old.out.ghost_name }
        ensures text { TextWritten (signed_text (get_or words.now i (pos 0))) self.old.out.now self.new.out.now self.old.at self.new.at }
        ensures near { self.new.at ≤ self.old.at + 21 }
    {
        let n = variable(words, i);
        if sign(words, i) == 1 {
            self.decimal(n);
            return;
        }
        self.byte(b'-');
        self.decimal(n);
    }

    // The signed number that a 16-bit pattern stands for.
    pub(crate) fn pattern(&mut self, p: u16)
        requires { self.old.at + 21 ≤ length self.old.out.now }
        ensures same { self.new.out.ghost_name ≡ self.old.out.ghost_name }
        ensures text { TextWritten (signed_text (signed p)) self.old.out.now self.new.out.now self.old.at self.new.at }
        ensures near { self.new.at ≤ self.old.at + 21 }
    {
        if p < 32768 {
            self.decimal(p as usize);
            return;
        }
        self.byte(b'-');
        self.decimal(65536 - (p as usize));
    }
}
