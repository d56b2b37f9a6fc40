// Statements, over the bytes: the statement walker and the list walker call each other, with the bytes left falling.
// Parameters are those of expressions; the state is changed in place.
ghost use Rattle.std.specs.Prelude.{◌≡◌, ◌+◌, ◌*◌, ◌≤◌, true, length};
ghost use Rattle.design.specs.Action.{assignment, statement, list};
ghost use Rattle.design.specs.Check.{names_of};
ghost use Rattle.design.specs.State.{slot_count, layout_of};
ghost use Rattle.step.specs.OneStep.{marked_if};
ghost use Rattle.step.specs.Accepted.{is_read, past, after_stmt, after_list};

use super::evaluate::{eval_bool, eval_int};
use design::bytes::wide;
use design::kind::Kind;
use design::shape::Shape;
use design::source::Source;

// Sets the mark where what was carried out passed the end.
pub fn mark_if(passed: bool, shape: Shape, slots: &mut [u16])
    requires { slot_count shape ≤ length slots.old }
    ensures { slots.new ≡ marked_if passed (layout_of shape) slots.old }
{
    if passed {
        slots[shape.variables + shape.matrices] = 1;
    }
}

// The position past the list at `at`, which is not taken.
pub fn skip_list<'a>(source: &Source<'a>, at: usize, nest: usize) -> usize
    ensures { result ≡ past (list source.now.text.now (names_of source.now.file.now source.now.shape) source.now.end nest at) }
{
    source.check_list(at, nest).unwrap_or(0)
}

// What follows the operator byte of an assignment.
pub fn run_assign<'a>(source: &Source<'a>, at: usize, slots: &mut [u16]) -> usize
    requires { (is_read (assignment source.now.text.now (names_of source.now.file.now source.now.shape) source.now.end at) ≡ true) × (slot_count source.now.shape ≤ length slots.old) }
    ensures { (slots.new
        ≡ after_stmt (layout_of source.now.shape) (assignment source.now.text.now (names_of source.now.file.now source.now.shape) source.now.end at) slots.old) × (result
        ≡ past (assignment source.now.text.now (names_of source.now.file.now source.now.shape) source.now.end at)) }
{
    let v = wide(source.text[at]);
    let k = source.file[3 * v];
    let shape = source.shape;
    if k == Kind::Integer as u8 {
        let x = eval_int(source.text, at + 1, source.end, shape, slots);
        mark_if(x.passed, shape, slots);
        slots[v] = x.value;
        x.next
    } else {
        let x = eval_bool(source.text, at + 1, source.end, shape, slots);
        mark_if(x.passed, shape, slots);
        slots[v] = u16::from(x.value);
        x.next
    }
}

// Runs the statement at `at`, which the reader accepts; answers the position past it.
#[cycle(run_list_run_stmt)]
pub fn run_stmt<'a>(source: &Source<'a>, at: usize, nest: usize, slots: &mut [u16]) -> usize
    requires { (is_read (statement source.now.text.now (names_of source.now.file.now source.now.shape) source.now.end nest at) ≡ true) × (slot_count source.now.shape ≤ length slots.old) }
    ensures { (slots.new
        ≡ after_stmt (layout_of source.now.shape) (statement source.now.text.now (names_of source.now.file.now source.now.shape) source.now.end nest at) slots.old) × (result
        ≡ past (statement source.now.text.now (names_of source.now.file.now source.now.shape) source.now.end nest at)) }
{
    let op = source.text[at];
    match op {
        0x20..=0x21 => {
            if op == 0x20 {
                return run_assign(source, at + 1, slots);
            }
            let shape = source.shape;
            let c = eval_bool(source.text, at + 1, source.end, shape, slots);
            mark_if(c.passed, shape, slots);
            if c.value {
                let m = run_list(source, c.next, nest - 1, slots);
                skip_list(source, m, nest - 1)
            } else {
                let m = skip_list(source, c.next, nest - 1);
                run_list(source, m, nest - 1, slots)
            }
        }
        _ => at,
    }
}

// Runs the list at `at`, which the reader accepts; answers the position past it.
#[cycle(run_list_run_stmt)]
pub fn run_list<'a>(source: &Source<'a>, at: usize, nest: usize, slots: &mut [u16]) -> usize
    requires { (is_read (list source.now.text.now (names_of source.now.file.now source.now.shape) source.now.end nest at) ≡ true) × (slot_count source.now.shape ≤ length slots.old) }
    ensures { (slots.new
        ≡ after_list (layout_of source.now.shape) (list source.now.text.now (names_of source.now.file.now source.now.shape) source.now.end nest at) slots.old) × (result
        ≡ past (list source.now.text.now (names_of source.now.file.now source.now.shape) source.now.end nest at)) }
{
    let count = source.text[at];
    let mut p = at + 1;
    for _ in 0..count {
        p = run_stmt(source, p, nest, slots);
    }
    p
}
