// Items: each is walked from its first byte to the position past it, or refused. `end` is where the items end.
ghost use Rattle.std.specs.Prelude.{◌≡◌, ◌+◌, ◌*◌, ◌≤◌, length};
ghost use Rattle.design.specs.DesignFile.{variable_at, matrix_at, event_at, invariant_at, constraint_at, filling};
ghost use Rattle.design.specs.Expression.{with_later, bool_expr};
ghost use Rattle.design.specs.Limits.{max_depth, trailer_bytes};
ghost use Rattle.design.specs.Check.{names_of};
ghost use Rattle.design.specs.Answers.{walked, length_filled};
ghost use Rattle.design.specs.Answer.{told};
ghost use Rattle.design.specs.Refusal.{number_of, place_of};

use super::bytes::{wide, word};
use super::kind::Kind;
use super::limits::{MAX_DEPTH, MAX_EVENTS, MAX_STATUSES};
use super::refusal::Refused;
use super::shape::Shape;
use super::source::Source;

// The items of a file, which end at `end`, before the trailer.
#[derive(Clone, Copy)]
pub struct Items<'a> {
    pub file: &'a [u8],
    pub end: usize,
    pub shape: Shape,
    ghost room: { end + trailer_bytes ≤ length file.now },
    ghost kinds: { 3 * shape.variables ≤ length file.now },
}

// What was read must fill its length up to `past`.
pub fn fill_length(read: Option<usize>, past: usize, refusal: Refused) -> Result<usize, Refused>
    ensures { told result ≡ length_filled (number_of refusal) (place_of refusal) past read }
{
    if read == Some(past) {
        Ok(past)
    } else {
        Err(refusal)
    }
}

// A variable: kind, initial value.
pub fn check_variable(file: &[u8], end: usize, at: usize) -> Result<usize, Refused>
    requires { (at ≤ end) × (end ≤ length file.now) }
    ensures { told result ≡ walked (variable_at file.now end at) }
{
    if end < at + 3 {
        return Err(Refused::Offset(at));
    }
    let k = file[at];
    if k > Kind::External as u8 {
        return Err(Refused::Variable(at));
    }
    if k == Kind::Integer as u8 {
        return Ok(at + 3);
    }
    let v = word(file, at + 1);
    if 1 < v {
        Err(Refused::Variable(at))
    } else {
        Ok(at + 3)
    }
}

// A matrix: status count, event count.
pub fn check_matrix(file: &[u8], end: usize, at: usize) -> Result<usize, Refused>
    requires { (at ≤ end) × (end ≤ length file.now) }
    ensures { told result ≡ walked (matrix_at file.now end at) }
{
    if end < at + 2 {
        return Err(Refused::Offset(at));
    }
    let s = file[at];
    let e = file[at + 1];
    if s < 1 {
        return Err(Refused::Matrix(at));
    }
    if MAX_STATUSES < s {
        return Err(Refused::Matrix(at));
    }
    if e < 1 {
        return Err(Refused::Matrix(at));
    }
    if MAX_EVENTS < e {
        return Err(Refused::Matrix(at));
    }
    Ok(at + 2)
}

impl<'a> Items<'a> {
    // One Boolean expression from `at` on that fills its length, up to `past`. `later` says whether it may read the next state.
    pub fn check_filling(
        self,
        at: usize,
        past: usize,
        later: bool,
        refusal: Refused,
    ) -> Result<usize, Refused>
        requires { past ≤ length self.file.now }
        ensures { told result ≡ walked (filling (number_of refusal) (place_of refusal) past (bool_expr self.entry.file.now (with_later later (names_of self.entry.file.now self.entry.shape)) past max_depth at)) }
    {
        let text = Source {
            text: self.file,
            end: past,
            file: self.file,
            shape: self.shape,
        };
        fill_length(text.check_bool(at, later, MAX_DEPTH), past, refusal)
    }

    // An event: length byte, Boolean expression.
    pub fn check_event(self, at: usize) -> Result<usize, Refused>
        requires { at ≤ self.end }
        ensures { told result ≡ walked (event_at self.entry.file.now self.entry.end (names_of self.entry.file.now self.entry.shape) at) }
    {
        let past = at + 1 + wide(self.file[at]);
        if self.end < past {
            return Err(Refused::Offset(at));
        }
        self.check_filling(at + 1, past, false, Refused::Expression(at))
    }

    // The invariant runs up to `past`, where the constraint starts.
    pub fn check_invariant(self, past: usize, at: usize) -> Result<usize, Refused>
        ensures { told result ≡ walked (invariant_at self.entry.file.now self.entry.end (names_of self.entry.file.now self.entry.shape) past at) }
    {
        if past < at {
            return Err(Refused::Offset(at));
        }
        if self.end < past {
            return Err(Refused::Offset(at));
        }
        self.check_filling(at, past, false, Refused::Expression(at))
    }

    // The constraint, if there is one, runs up to the end.
    pub fn check_constraint(self, constrained: bool, at: usize) -> Result<usize, Refused>
        ensures { told result ≡ walked (constraint_at self.entry.file.now self.entry.end (names_of self.entry.file.now self.entry.shape) constrained at) }
    {
        if !constrained {
            return Ok(at);
        }
        self.check_filling(at, self.end, true, Refused::Expression(at))
    }
}
