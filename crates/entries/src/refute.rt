// REFUTE.
ghost use Rattle.std.specs.Prelude.{◌≡◌};
ghost use Rattle.entries.specs.Refute.{refute_entry};

use super::code::code_of;
use search::refute::{Judged, refute};

#[unsafe(no_mangle)]
pub extern "C" fn stm_refute(
    n: u64,
    words: &[i32],
    refutation: &[i32],
    values: &mut [u8],
    answer: &mut [u64; 2],
) -> u64
    ensures { record { code = result; values = values.new; answer = answer.new }
        ≡ refute_entry n words.now refutation.now values.old answer.old }
{
    match refute(n, words, refutation, values) {
        Err(r) => code_of(r),
        Ok(j) => {
            *answer = match j {
                Judged::Accepted => [0, 0],
                Judged::Word(i) => [1, i as u64],
                Judged::Ended => [2, 0],
            };
            0
        }
    }
}
