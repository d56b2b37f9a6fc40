// Several owners on one design.
ghost use Rattle.std.specs.Prelude.{◌≡◌, map};
ghost use Rattle.entries.specs.Owners.{owners_entry};

use super::code::code_alone;
use verdict::answer::ANSWER_WORDS;
use verdict::owners::{MOST_OWNERS, owners};

#[unsafe(no_mangle)]
pub extern "C" fn stm_owners<'a>(
    file: &'a [u8],
    bound: u64,
    count: u64,
    pieces: &[&'a [u8]; MOST_OWNERS],
    budgets: &[u64; MOST_OWNERS],
    clauses: &mut [i32],
    values: &mut [u8],
    trail: &mut [u32],
    choices: &mut [&mut [u8]; MOST_OWNERS],
    answers: &mut [[u64; ANSWER_WORDS]; MOST_OWNERS],
) -> u64
    ensures { record {
      code = result;
      buffers = record { clauses = clauses.new; values = values.new; trail = trail.new };
      choices = map (λ x. x.now) choices.new;
      pointers = map (λ x. x.ref_ptr) choices.new;
      answers = answers.new;
    }
        ≡ owners_entry file.now bound count (map (λ x. x.now) pieces.now) budgets.now
        (record { clauses = clauses.old; values = values.old; trail = trail.old }) (map (λ x. x.now) choices.old) (map (λ x. x.ref_ptr) choices.old) answers.old }
{
    code_alone(owners(
        file, bound, count, pieces, budgets, clauses, values, trail, choices, answers,
    ))
}
