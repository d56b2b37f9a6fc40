// SOLVE.
ghost use Rattle.std.specs.Prelude.{◌≡◌};
ghost use Rattle.entries.specs.Solve.{answer_number, solve_entry};

use super::code::code_of;
use search::Answered;

fn answer_number(a: Answered) -> u64
    ensures { result ≡ answer_number a }
{
    a as u64
}

#[unsafe(no_mangle)]
pub extern "C" fn stm_solve(
    n: u64,
    words: &[i32],
    values: &mut [u8],
    trail: &mut [u32],
    budget: u64,
    answer: &mut [u64; 2],
) -> u64
    ensures { record { code = result; values = values.new; trail = trail.new; answer = answer.new }
        ≡ solve_entry n words.now values.old trail.old budget answer.old }
{
    match search::solve(n, words, values, trail, budget) {
        Err(r) => code_of(r),
        Ok(s) => {
            *answer = [answer_number(s.answer), s.tries];
            0
        }
    }
}
