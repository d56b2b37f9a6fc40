// VERDICT.
ghost use Rattle.std.specs.Prelude.{◌≡◌};
ghost use Rattle.entries.specs.Verdict.{verdict_entry};

use super::code::code_of;
use verdict::answer::{verdict_number, verdict_step};
use verdict::verdict;

#[unsafe(no_mangle)]
pub extern "C" fn stm_verdict<'a>(
    file: &'a [u8],
    piece: &'a [u8],
    property: u64,
    bound: u64,
    budget: u64,
    clauses: &mut [i32],
    values: &mut [u8],
    trail: &mut [u32],
    choices: &mut [u8],
    answer: &mut [u64; 3],
) -> u64
    ensures { record {
      code = result;
      memory = record { clauses = clauses.new; values = values.new; trail = trail.new; choices = choices.new };
      answer = answer.new;
    }
        ≡ verdict_entry file.now piece.now property bound budget
        (record { clauses = clauses.old; values = values.old; trail = trail.old; choices = choices.old }) answer.old }
{
    match verdict(
        file, piece, property, bound, budget, clauses, values, trail, choices,
    ) {
        Err(r) => code_of(r),
        Ok(t) => {
            let told = verdict_number(t.verdict);
            let at = verdict_step(t.verdict);
            *answer = [told, at, t.tries];
            0
        }
    }
}
