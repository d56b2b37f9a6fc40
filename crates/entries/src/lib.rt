// The entries for hosts: every operation as a C function on numbers and lent slices. A slice is passed as a pointer and a length,
// an array as a pointer, an array of slices as a pointer to pairs of pointer and length. An entry returns the code of the refusal, or 0; a longer answer is written into a lent array.
#![tactic(auto)]

pub mod check;
pub mod clause_writer;
mod code;
pub mod judge;
pub mod owners;
pub mod refute;
pub mod solve;
pub mod step_rule;
