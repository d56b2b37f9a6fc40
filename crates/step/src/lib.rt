// The step rule: START, STEP, HOLDS, REPLAY.
#![tactic(auto)]

mod calls;
mod evaluate;
mod execute;
pub mod gate;
mod interface;
pub mod limits;
pub mod machine;
pub mod mover;
mod number;
pub mod piece;
pub mod property;
pub mod replaying;

ghost use Rattle.std.specs.Prelude.{◌≡◌};
ghost use Rattle.design.specs.Answer.{told};
ghost use Rattle.step.specs.Operations.{START, STEP, HOLDS, REPLAY};

use calls::{holds_accepted, start_accepted, step_accepted};
use design::limits::{MAX_MATRICES, MAX_VARIABLES};
use design::refusal::Refused;
use gate::gate;
use replaying::replay_accepted;

// A state as the calls give it.
#[derive(Clone, Copy)]
pub struct Started {
    pub values: [i16; MAX_VARIABLES],
    pub statuses: [u16; MAX_MATRICES],
    pub mark: u16,
}

#[derive(Clone, Copy)]
pub struct Stepped {
    pub values: [i16; MAX_VARIABLES],
    pub statuses: [u16; MAX_MATRICES],
    pub mark: u16,
    pub idle: bool,
}

// The first breaking step, where there is one; how many choices had their event read, and how many their guard.
#[derive(Clone, Copy)]
pub struct Replayed {
    pub broken: Option<usize>,
    pub events: usize,
    pub guards: usize,
}

// START
pub fn start(file: &[u8]) -> Result<Started, Refused>
    ensures { told result ≡ START file.now }
{
    design::check(file)?;
    Ok(start_accepted(file))
}

// STEP
pub fn step(
    file: &[u8],
    values: [i16; MAX_VARIABLES],
    statuses: [u16; MAX_MATRICES],
    mark: u16,
    choice: u64,
) -> Result<Stepped, Refused>
    ensures { told result ≡ STEP file.now values statuses mark choice }
{
    design::check(file)?;
    step_accepted(file, values, statuses, mark, choice)
}

// HOLDS
pub fn holds(
    file: &[u8],
    values: [i16; MAX_VARIABLES],
    statuses: [u16; MAX_MATRICES],
    mark: u16,
    property: u64,
) -> Result<bool, Refused>
    ensures { told result ≡ HOLDS file.now values statuses mark property }
{
    design::check(file)?;
    holds_accepted(file, values, statuses, mark, property)
}

// REPLAY
pub fn replay<'a>(
    file: &'a [u8],
    piece: &'a [u8],
    property: u64,
    choices: &[u8],
) -> Result<Replayed, Refused>
    ensures { told result ≡ REPLAY file.now piece.now property choices.now }
{
    gate(file, piece, property, choices.len() as u64)?;
    replay_accepted(file, piece, property, choices)
}
