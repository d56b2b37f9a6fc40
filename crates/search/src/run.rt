// The turns of the search.
ghost use Rattle.std.specs.Prelude.{length};
ghost use Rattle.search.specs.Memory.{settings_of, ReadyTrail, AfterTurn, Fresh, AllUnset, outcome, Ran};

use super::scan::{Found, scan};
use super::trail::{assign, latest, lowest, undo};
use super::{Answered, Solved};

// What a turn comes to: a unit set, with how many settings stand and the place at which the next scan starts; a branch
// value taken, with how many settings stand; all set; or no branch left.
#[derive(Clone, Copy)]
pub enum Step {
    Goes { set: usize, next: usize },
    Tries(usize),
    Sat,
    Unsat,
}

// One turn, from t settings; the scan reads on at `from`, and the variables 1, 2, .., low are set.
pub fn turn(
    words: &[i32],
    values: &mut [u8],
    trail: &mut [u32],
    t: usize,
    from: usize,
    low: usize,
) -> Step
    requires { ReadyTrail (length values.old) words.now values.old trail.old t from low }
    ensures { AfterTurn (length values.old) words.now (settings_of values.old trail.old t) result
        values.old values.new trail.new }
{
    match scan(words, values, from) {
        Found::Conflict => match undo(values, trail, t) {
            Some(k) => Step::Tries(k),
            None => Step::Unsat,
        },
        Found::Unit { var, value, next } => {
            assign(values, trail, t, var, value, 0);
            Step::Goes { set: t + 1, next }
        }
        Found::Nothing => match lowest(values, low) {
            Some(v) => {
                assign(values, trail, t, v, 0, 1);
                Step::Tries(t + 1)
            }
            None => Step::Sat,
        },
    }
}

// The turns, from all unset. Every variable up to the latest branch is set (proofs/Branching.antt), so the next branch is
// sought from there on.
pub fn run(words: &[i32], values: &mut [u8], trail: &mut [u32], budget: u64) -> Solved
    requires { Fresh words.now values.old trail.old × AllUnset values.old }
    ensures { Ran (outcome values.old words.now budget) (length values.old) result values.new }
{
    let mut t: usize = 0;
    let mut from: usize = 0;
    let mut low: usize = 0;
    let mut tries: u64 = 0;
    // Kept: it ends by what a turn comes to, and counts nothing.
    loop {
        match turn(words, values, trail, t, from, low) {
            Step::Goes { set, next } => {
                t = set;
                from = next;
            }
            Step::Tries(k) => {
                if tries >= budget {
                    return Solved {
                        answer: Answered::Spent,
                        tries,
                    };
                }
                tries += 1;
                t = k;
                from = 0;
                low = latest(trail, k);
            }
            Step::Sat => {
                return Solved {
                    answer: Answered::Sat,
                    tries,
                };
            }
            Step::Unsat => {
                return Solved {
                    answer: Answered::Unsat,
                    tries,
                };
            }
        }
    }
}
