// The bounds one after the other.
ghost use Rattle.std.specs.Prelude.{◌≡◌};
ghost use Rattle.verdict.specs.Verdict.{verdict as verdict_of};
ghost use Rattle.verdict.specs.Answers.{exit};
ghost use Rattle.design.specs.Answer.{answer};
ghost use Rattle.verdict.specs.Loop.{ReadyMemory};

use super::answer::{Told, Verdict};
use clauses::decode::decode;
use clauses::encode::write_formula;
use search::{Answered, search};

// The bounds one after the other, to the first SAT.
pub fn judge<'a>(
    file: &'a [u8],
    piece: &'a [u8],
    property: u64,
    bound: u64,
    budget: u64,
    clauses: &mut [i32],
    values: &mut [u8],
    trail: &mut [u32],
    choices: &mut [u8],
) -> Told
    requires { ReadyMemory file.now piece.now property bound (record { clauses = clauses.old; values = values.old; trail = trail.old; choices = choices.old }) }
    ensures { record {
      reply = answer result;
      memory = record { clauses = clauses.new; values = values.new; trail = trail.new; choices = choices.new };
    }
        ≡ exit (verdict_of file.now piece.now property bound budget
        (record { clauses = clauses.old; values = values.old; trail = trail.old; choices = choices.old })) }
{
    let mut tries: u64 = 0;
    for i in 0..=bound {
        let f = write_formula(file, piece, property, i, clauses);
        let m = f.words;
        let n = f.variables;
        let r = search(
            &clauses[..m],
            &mut values[..n],
            &mut trail[..n],
            budget - tries,
        );
        tries += r.tries;
        match r.answer {
            Answered::Sat => {
                // What VERDICT was admitted for, DECODE does not refuse.
                let _ = decode(file, piece, property, i, values, choices);
                return Told {
                    verdict: Verdict::Violated(i),
                    tries,
                };
            }
            Answered::Spent => {
                return Told {
                    verdict: Verdict::Spent(i),
                    tries,
                };
            }
            Answered::Unsat => {}
        }
    }
    Told {
        verdict: Verdict::Clean,
        tries,
    }
}
