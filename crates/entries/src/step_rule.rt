// START, STEP, HOLDS and REPLAY.
ghost use Rattle.std.specs.Prelude.{◌≡◌};
ghost use Rattle.entries.specs.Step.{start_entry, step_entry, holds_entry, replay_entry};

use super::code::code_of;
use design::limits::{MAX_MATRICES, MAX_VARIABLES};

#[unsafe(no_mangle)]
pub extern "C" fn stm_start(
    file: &[u8],
    values: &mut [i16; MAX_VARIABLES],
    statuses: &mut [u16; MAX_MATRICES],
    mark: &mut [u16; 1],
) -> u64
    ensures { record { code = result; values = values.new; statuses = statuses.new; mark = mark.new }
        ≡ start_entry file.now values.old statuses.old mark.old }
{
    match step::start(file) {
        Err(r) => code_of(r),
        Ok(told) => {
            let v = told.values;
            let s = told.statuses;
            *values = v;
            *statuses = s;
            *mark = [told.mark];
            0
        }
    }
}

#[unsafe(no_mangle)]
pub extern "C" fn stm_step(
    file: &[u8],
    values: &mut [i16; MAX_VARIABLES],
    statuses: &mut [u16; MAX_MATRICES],
    mark: &mut [u16; 1],
    choice: u64,
    idle: &mut [u8; 1],
) -> u64
    ensures { record { code = result; values = values.new; statuses = statuses.new; mark = mark.new; idle = idle.new }
        ≡ step_entry file.now values.old statuses.old mark.old choice idle.old }
{
    match step::step(file, *values, *statuses, mark[0], choice) {
        Err(r) => code_of(r),
        Ok(told) => {
            let v = told.values;
            let s = told.statuses;
            *values = v;
            *statuses = s;
            *mark = [told.mark];
            *idle = [told.idle as u8];
            0
        }
    }
}

#[unsafe(no_mangle)]
pub extern "C" fn stm_holds(
    file: &[u8],
    values: &[i16; MAX_VARIABLES],
    statuses: &[u16; MAX_MATRICES],
    mark: u16,
    property: u64,
    holds: &mut [u8; 1],
) -> u64
    ensures { record { code = result; holds = holds.new } ≡ holds_entry file.now values.now statuses.now mark property holds.old }
{
    match step::holds(file, *values, *statuses, mark, property) {
        Err(r) => code_of(r),
        Ok(told) => {
            *holds = [told as u8];
            0
        }
    }
}

#[unsafe(no_mangle)]
pub extern "C" fn stm_replay<'a>(
    file: &'a [u8],
    piece: &'a [u8],
    property: u64,
    choices: &[u8],
    answer: &mut [u64; 4],
) -> u64
    ensures { record { code = result; answer = answer.new } ≡ replay_entry file.now piece.now property choices.now answer.old }
{
    match step::replay(file, piece, property, choices) {
        Err(r) => code_of(r),
        Ok(told) => {
            let events = told.events as u64;
            let guards = told.guards as u64;
            *answer = match told.broken {
                Some(i) => [1, i as u64, events, guards],
                None => [0, 0, events, guards],
            };
            0
        }
    }
}
