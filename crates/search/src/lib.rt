// The search: SOLVE; and REFUTE, which sets units as it does.
#![tactic(auto)]

ghost use Rattle.std.specs.Prelude.{◌≡◌, length};
ghost use Rattle.design.specs.Answer.{told};
ghost use Rattle.search.specs.Solve.{solve as solve_of};
ghost use Rattle.search.specs.Memory.{Fresh, outcome, Leaves};

pub mod words; // words of a clause list
mod reader; // a clause list read forward
mod scan; // the scan for units and conflicts
mod trail; // setting a variable, the lowest unset one, undoing
mod run; // the turns
pub mod refute; // REFUTE

use design::refusal::Refused;
use run::run as run_turns;
use words::bad_word;

// A word names a variable by an i32.
const MAX_VARIABLE: u64 = i32::MAX as u64;

// The search's answer.
#[derive(Clone, Copy, PartialEq, Eq)]
pub enum Answered {
    Sat,
    Unsat,
    Spent,
}

#[derive(Clone, Copy)]
pub struct Solved {
    pub answer: Answered,
    pub tries: u64,
}

// The search on values and a trail of just n entries, and what it leaves there.
pub fn search(words: &[i32], values: &mut [u8], trail: &mut [u32], budget: u64) -> Solved
    requires { Fresh words.now values.old trail.old }
    ensures { Leaves (outcome values.old words.now budget) (length values.old) result values.new trail.new }
{
    values.fill(2);
    let r = run_turns(words, values, trail, budget);
    trail.fill(0);
    if r.answer != Answered::Sat {
        values.fill(0);
    }
    r
}

// SOLVE: n variables, the clauses as words, memory for values and the trail, and the budget.
pub fn solve(
    n: u64,
    words: &[i32],
    values: &mut [u8],
    trail: &mut [u32],
    budget: u64,
) -> Result<Solved, Refused>
    ensures { record { reply = told result; values = values.new; trail = trail.new } ≡ solve_of n words.now values.old trail.old budget }
{
    if n > MAX_VARIABLE {
        return Err(Refused::Clauses(0));
    }
    if let Some(i) = bad_word(n, words) {
        return Err(Refused::Clauses(i));
    }
    let k = n as usize;
    if values.len() < k || trail.len() < k {
        return Err(Refused::Memory);
    }
    Ok(search(words, &mut values[..k], &mut trail[..k], budget))
}
