// Several owners on one design: each owner's VERDICT on property 0, one after the other in the same buffers.
ghost use Rattle.std.specs.Prelude.{◌≡◌, map, take};
ghost use Rattle.design.specs.Check.{Checked, check};
ghost use Rattle.design.specs.Tree.{Design};
ghost use Rattle.design.specs.Answer.{told};
ghost use Rattle.design.specs.Refusal.{turned};
ghost use Rattle.verdict.specs.Answers.{exit, owners_exit};
ghost use Rattle.verdict.specs.Owners.{owners_of, each_owner, owners as all_owners};
ghost use Rattle.verdict.specs.OwnersLoop.{last_bound, Clearable, Cleared, one_owner, Counted};

use super::answer::{ANSWER_WORDS, Told, Verdict, told_words};
use super::verdict;
use clauses::size::size;
use design::refusal::Refused;

// "Up to four"
pub const MOST_OWNERS: usize = 4;

// The bound of the last formula tried.
fn last_bound(v: Verdict, bound: u64) -> u64
    ensures { result ≡ last_bound bound v }
{
    match v {
        Verdict::Violated(i) => i,
        Verdict::Clean => bound,
        Verdict::Spent(i) => i,
    }
}

// Zeros where a formula and the values of its variables stood; the trail is zero there already.
fn clear<'a>(file: &'a [u8], piece: &'a [u8], bound: u64, clauses: &mut [i32], values: &mut [u8])
    requires { Clearable file.now piece.now bound clauses.old values.old }
    ensures { Cleared file.now piece.now bound clauses.old clauses.new values.old values.new }
{
    if let Ok(s) = size(file, piece, 0, bound) {
        let m = s.words as usize;
        let n = s.variables as usize;
        clauses[..m].fill(0);
        values[..n].fill(0);
    }
}

// One owner: VERDICT on property 0, and what it used is zero afterwards.
fn one_owner<'a>(
    file: &'a [u8],
    piece: &'a [u8],
    bound: u64,
    budget: u64,
    clauses: &mut [i32],
    values: &mut [u8],
    trail: &mut [u32],
    choices: &mut [u8],
) -> Result<Told, Refused>
    ensures { (d : Design) → check file.now ≡ Checked.accepted d
        → record { reply = told result; memory = record { clauses = clauses.new; values = values.new; trail = trail.new; choices = choices.new } }
        ≡ exit (one_owner file.now d bound
        (record { clauses = clauses.old; values = values.old; trail = trail.old })
        (record { piece = piece.now; budget = budget; choices = choices.old })) }
{
    let r = verdict(
        file, piece, 0, bound, budget, clauses, values, trail, choices,
    );
    if let Ok(t) = r {
        let v = t.verdict;
        clear(file, piece, last_bound(v, bound), clauses, values);
    }
    r
}

// Each owner, and the words of its answer. Kept: C lends the owners' arrays side by side.
fn each_owner<'a>(
    file: &'a [u8],
    bound: u64,
    count: usize,
    pieces: &[&'a [u8]],
    budgets: &[u64],
    clauses: &mut [i32],
    values: &mut [u8],
    trail: &mut [u32],
    choices: &mut [&mut [u8]],
    answers: &mut [[u64; ANSWER_WORDS]],
)
    requires { Counted count pieces.now budgets.now choices.old answers.old }
    ensures { (d : Design) → check file.now ≡ Checked.accepted d
        → record {
          refusal = record { number = 0; place = 0 };
          buffers = record { clauses = clauses.new; values = values.new; trail = trail.new };
          choices = map (λ x. x.now) choices.new;
          pointers = map (λ x. x.ref_ptr) choices.new;
          answers = answers.new;
        }
        ≡ owners_exit (each_owner file.now bound (record { clauses = clauses.old; values = values.old; trail = trail.old }) d
        (take count (owners_of (map (λ x. x.now) pieces.now) budgets.now (map (λ x. x.now) choices.old))) (map (λ x. x.now) choices.old))
        (map (λ x. x.ref_ptr) choices.old) answers.old }
{
    for i in 0..count {
        let r = one_owner(
            file, pieces[i], bound, budgets[i], clauses, values, trail, choices[i],
        );
        answers[i] = told_words(r);
    }
}

// A design, a bound, the count of owners and for each a piece, a budget and memory for choices, and memory for the clauses, the values and the trail of all.
pub fn owners<'a>(
    file: &'a [u8],
    bound: u64,
    count: u64,
    pieces: &[&'a [u8]; MOST_OWNERS],
    budgets: &[u64; MOST_OWNERS],
    clauses: &mut [i32],
    values: &mut [u8],
    trail: &mut [u32],
    choices: &mut [&mut [u8]; MOST_OWNERS],
    answers: &mut [[u64; ANSWER_WORDS]; MOST_OWNERS],
) -> Result<(), Refused>
    ensures { record {
      refusal = turned result;
      buffers = record { clauses = clauses.new; values = values.new; trail = trail.new };
      choices = map (λ x. x.now) choices.new;
      pointers = map (λ x. x.ref_ptr) choices.new;
      answers = answers.new;
    }
        ≡ owners_exit (all_owners file.now bound (record { clauses = clauses.old; values = values.old; trail = trail.old })
        count (map (λ x. x.now) pieces.now) budgets.now (map (λ x. x.now) choices.old)) (map (λ x. x.ref_ptr) choices.old) answers.old }
{
    design::check(file)?;
    if count == 0 {
        return Err(Refused::Owners);
    }
    if count > MOST_OWNERS as u64 {
        return Err(Refused::Owners);
    }
    each_owner(
        file,
        bound,
        count as usize,
        pieces,
        budgets,
        clauses,
        values,
        trail,
        choices,
        answers,
    );
    Ok(())
}
