// Expressions: a decision over the operator byte, with ranges for operators of one shape.
// In every function what is read starts at `at`; `later` says whether the next state may be read too.
ghost use Rattle.std.specs.Prelude.{◌≡◌, false, List, ℕ, ◌*◌, ◌≤◌, length};
ghost use Rattle.design.specs.Reading.{fail};
ghost use Rattle.design.specs.Expression.{Names, with_later, int_of, bool_of, int_expr, bool_expr, IntOp, BoolOp};
ghost use Rattle.design.specs.Check.{names_of};
ghost use Rattle.design.specs.Answers.{found};

use super::kind::Kind;
use super::shape::Shape;
use super::source::Source;

// The integer constant at `at`.
pub fn read_integer_constant(at: usize, end: usize) -> Option<usize>
    requires { at ≤ end }
    ensures { (text : List ℕ) (N : Names) → result ≡ found (int_of text N end fail IntOp.op_constant at) }
{
    if 2 <= end - at { Some(at + 2) } else { None }
}

// The matrix whose status is read.
pub fn read_status(text: &[u8], at: usize, end: usize, shape: Shape) -> Option<usize>
    requires { end ≤ length text.now }
    ensures { (file : List ℕ) → result ≡ found (int_of text.now (names_of file shape) end fail (IntOp.op_status false) at) }
{
    if end <= at {
        return None;
    }
    let m = text[at] as usize;
    if m < shape.matrices {
        Some(at + 1)
    } else {
        None
    }
}

// The byte 0 or 1.
pub fn read_boolean_constant(text: &[u8], at: usize, end: usize) -> Option<usize>
    requires { end ≤ length text.now }
    ensures { (N : Names) → result ≡ found (bool_of text.now N end fail fail BoolOp.op_constant at) }
{
    if end <= at {
        return None;
    }
    let b = text[at];
    if b <= 1 { Some(at + 1) } else { None }
}

impl<'a> Source<'a> {
    // The integer variable named at `at`.
    pub fn read_integer_variable(&self, at: usize) -> Option<usize>
        ensures { result ≡ found (int_of self.now.text.now (names_of self.now.file.now self.now.shape) self.now.end fail (IntOp.op_variable false) at) }
    {
        if self.end <= at {
            return None;
        }
        let v = self.text[at] as usize;
        if self.shape.variables <= v {
            return None;
        }
        let k = self.file[3 * v];
        if k == Kind::Integer as u8 {
            Some(at + 1)
        } else {
            None
        }
    }

    // The Boolean or external variable named at `at`.
    pub fn read_boolean_variable(&self, at: usize) -> Option<usize>
        ensures { result ≡ found (bool_of self.now.text.now (names_of self.now.file.now self.now.shape) self.now.end fail fail (BoolOp.op_variable false) at) }
    {
        if self.end <= at {
            return None;
        }
        let v = self.text[at] as usize;
        if self.shape.variables <= v {
            return None;
        }
        let k = self.file[3 * v];
        if k == Kind::Integer as u8 {
            None
        } else {
            Some(at + 1)
        }
    }

    // The integer expression at `at`, of depth at most `depth`.
    pub fn check_int(&self, at: usize, later: bool, depth: usize) -> Option<usize>
        ensures { result ≡ found (int_expr self.now.text.now (with_later later (names_of self.now.file.now self.now.shape)) self.now.end depth at) }
    {
        if depth == 0 {
            return None;
        }
        if self.end <= at {
            return None;
        }
        let op = self.text[at];
        // Kept: the byte is the operator's name in document 01's table, which the definition has; an enum would repeat it.
        match op {
            0x01 => read_integer_constant(at + 1, self.end),
            0x02 => self.read_integer_variable(at + 1),
            0x03 => read_status(self.text, at + 1, self.end, self.shape),
            0x04..=0x05 => {
                let m = self.check_int(at + 1, later, depth - 1)?;
                self.check_int(m, later, depth - 1)
            }
            0x06..=0x07 => {
                if !later {
                    return None;
                }
                if op == 0x06 {
                    self.read_integer_variable(at + 1)
                } else {
                    read_status(self.text, at + 1, self.end, self.shape)
                }
            }
            0x08 => {
                let m = read_integer_constant(at + 1, self.end)?;
                self.check_int(m, later, depth - 1)
            }
            _ => None,
        }
    }

    // The Boolean expression at `at`, likewise.
    pub fn check_bool(&self, at: usize, later: bool, depth: usize) -> Option<usize>
        ensures { result ≡ found (bool_expr self.now.text.now (with_later later (names_of self.now.file.now self.now.shape)) self.now.end depth at) }
    {
        if depth == 0 {
            return None;
        }
        if self.end <= at {
            return None;
        }
        let op = self.text[at];
        match op {
            0x10 => read_boolean_constant(self.text, at + 1, self.end),
            0x11 => self.read_boolean_variable(at + 1),
            0x12 => self.check_bool(at + 1, later, depth - 1),
            0x13..=0x14 => {
                let m = self.check_bool(at + 1, later, depth - 1)?;
                self.check_bool(m, later, depth - 1)
            }
            0x15..=0x16 => {
                let m = self.check_int(at + 1, later, depth - 1)?;
                self.check_int(m, later, depth - 1)
            }
            0x17 => {
                if !later {
                    return None;
                }
                self.read_boolean_variable(at + 1)
            }
            _ => None,
        }
    }
}
