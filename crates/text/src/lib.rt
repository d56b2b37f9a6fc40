// The text of the programs, written into a lent buffer.
#![tactic(auto)]

pub mod writer; // a lent buffer: bytes and numbers
pub mod line; // a line of the Replay program
pub mod input; // the input of the programs
pub mod trace; // what the Replay program prints
pub mod listing; // what the clause printer prints
