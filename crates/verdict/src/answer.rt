// What VERDICT answers, and the same in numbers.
ghost use Rattle.std.specs.Prelude.{◌≡◌};
ghost use Rattle.verdict.specs.Answers.{verdict_number, verdict_step, numbered, owner_words};
ghost use Rattle.design.specs.Answer.{told};

use design::refusal::Refused;

// "VIOLATED with its step, CLEAN, or SPENT with the bound it stood at"
#[derive(Clone, Copy)]
pub enum Verdict {
    Violated(u64),
    Clean,
    Spent(u64),
}

// The verdict, and the tries summed.
#[derive(Clone, Copy)]
pub struct Told {
    pub verdict: Verdict,
    pub tries: u64,
}

// CLEAN is 0, VIOLATED 1, SPENT 2. Kept: C is told numbers.
pub fn verdict_number(v: Verdict) -> u64
    ensures { result ≡ verdict_number v }
{
    match v {
        Verdict::Clean => 0,
        Verdict::Violated(_) => 1,
        Verdict::Spent(_) => 2,
    }
}

// The step, or the bound it stood at; of CLEAN 0.
pub fn verdict_step(v: Verdict) -> u64
    ensures { result ≡ verdict_step v }
{
    match v {
        Verdict::Clean => 0,
        Verdict::Violated(i) => i,
        Verdict::Spent(i) => i,
    }
}

// How many words an owner's answer has.
pub const ANSWER_WORDS: usize = 5;

// An owner's answer: a refusal's number and place, any two numbers, then the verdict, its step or bound, and the tries.
pub fn owner_words(reply: Result<Told, (u8, usize)>) -> [u64; ANSWER_WORDS]
    ensures { result ≡ owner_words (numbered reply) }
{
    match reply {
        Err((number, place)) => [number as u64, place as u64, 0, 0, 0],
        Ok(t) => [
            0,
            0,
            verdict_number(t.verdict),
            verdict_step(t.verdict),
            t.tries,
        ],
    }
}

// The same of what VERDICT answered.
pub fn told_words(reply: Result<Told, Refused>) -> [u64; ANSWER_WORDS]
    ensures { result ≡ owner_words (told reply) }
{
    match reply {
        Err(r) => owner_words(Err((r.number(), r.place()))),
        Ok(t) => owner_words(Ok(t)),
    }
}
