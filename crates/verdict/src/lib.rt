// VERDICT, and several owners on one design.
#![tactic(auto)]

pub mod answer;
mod bounds;
pub mod owners;

ghost use Rattle.std.specs.Prelude.{◌≡◌};
ghost use Rattle.verdict.specs.Verdict.{verdict as verdict_of};
ghost use Rattle.verdict.specs.Answers.{exit};
ghost use Rattle.design.specs.Answer.{told};

use answer::Told;
use bounds::judge;
use clauses::size::size;
use design::refusal::Refused;

// VERDICT: a design, a piece, a property, a bound, a budget of tries, and memory for the clauses, the values, the trail and the choices.
pub fn verdict<'a>(
    file: &'a [u8],
    piece: &'a [u8],
    property: u64,
    bound: u64,
    budget: u64,
    clauses: &mut [i32],
    values: &mut [u8],
    trail: &mut [u32],
    choices: &mut [u8],
) -> Result<Told, Refused>
    ensures { record { reply = told result; memory = record { clauses = clauses.new; values = values.new; trail = trail.new; choices = choices.new } }
        ≡ exit (verdict_of file.now piece.now property bound budget
        (record { clauses = clauses.old; values = values.old; trail = trail.old; choices = choices.old })) }
{
    let s = size(file, piece, property, bound)?;
    if (clauses.len() as u64) < s.words {
        return Err(Refused::Memory);
    }
    if (values.len() as u64) < s.variables {
        return Err(Refused::Memory);
    }
    if (trail.len() as u64) < s.variables {
        return Err(Refused::Memory);
    }
    if (choices.len() as u64) < bound {
        return Err(Refused::Memory);
    }
    Ok(judge(
        file, piece, property, bound, budget, clauses, values, trail, choices,
    ))
}
