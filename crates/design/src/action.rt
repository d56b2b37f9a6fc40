// Actions: the statement walker and the list walker call each other, with the bytes left falling. Parameters are those of expressions.
ghost use Rattle.std.specs.Prelude.{◌≡◌, ◌*◌, ◌≤◌, length};
ghost use Rattle.design.specs.Action.{assignment, statement, list};
ghost use Rattle.design.specs.Check.{names_of};
ghost use Rattle.design.specs.Answers.{found};

use super::kind::Kind;
use super::limits::MAX_DEPTH;
use super::source::Source;

impl<'a> Source<'a> {
    // What follows the operator byte of an assignment.
    pub fn check_assign(&self, at: usize) -> Option<usize>
        ensures { result ≡ found (assignment self.now.text.now (names_of self.now.file.now self.now.shape) self.now.end at) }
    {
        if self.end <= at {
            return None;
        }
        let v = self.text[at] as usize;
        if self.shape.variables <= v {
            return None;
        }
        let k = self.file[3 * v];
        if k == Kind::Integer as u8 {
            self.check_int(at + 1, false, MAX_DEPTH)
        } else {
            self.check_bool(at + 1, false, MAX_DEPTH)
        }
    }

    // The statement at `at`, in which ifs nest at most `nest` deep.
    #[cycle(check_list_check_stmt)]
    pub fn check_stmt(&self, at: usize, nest: usize) -> Option<usize>
        ensures { result ≡ found (statement self.now.text.now (names_of self.now.file.now self.now.shape) self.now.end nest at) }
    {
        if self.end <= at {
            return None;
        }
        let op = self.text[at];
        match op {
            0x20..=0x21 => {
                if op == 0x20 {
                    return self.check_assign(at + 1);
                }
                if nest == 0 {
                    return None;
                }
                let m = self.check_bool(at + 1, false, MAX_DEPTH)?;
                let p = self.check_list(m, nest - 1)?;
                self.check_list(p, nest - 1)
            }
            _ => None,
        }
    }

    // The list at `at`: its count, and then its statements.
    #[cycle(check_list_check_stmt)]
    pub fn check_list(&self, at: usize, nest: usize) -> Option<usize>
        ensures { result ≡ found (list self.now.text.now (names_of self.now.file.now self.now.shape) self.now.end nest at) }
    {
        if self.end <= at {
            return None;
        }
        let count = self.text[at];
        let mut p = at + 1;
        for _ in 0..count {
            p = self.check_stmt(p, nest)?;
        }
        Some(p)
    }
}
