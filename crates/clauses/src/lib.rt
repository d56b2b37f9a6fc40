// The clause writer: SIZE, ENCODE, DECODE.
#![tactic(auto)]

mod literal; // literals as codes, and the one function that stores a word
mod gate; // and, xor, mux, or
mod circuit; // sum, difference, product, less, equal, over 16 bits
mod mark; // the mark behind a sum, difference or product
mod expression; // the circuits of expressions
mod action; // statements and lists
pub mod tables; // an accepted file with its table of events and its shape
mod mover; // a cell, an external
mod movers; // the gates of a step
mod property; // the gates of a property
mod clause; // clauses that are no gates
mod instance; // what formula is written
mod first; // part 0
mod last; // the last part
mod part; // a frame's part, any part, all parts
mod cost; // numbers of gates, of expressions and statements
mod cells; // the same, of cells
pub mod frame; // the sizes of a frame and of the formula
mod admission; // CHECK, 13, 8, 14 and 19
pub mod size; // SIZE
pub mod encode; // ENCODE
pub mod decode; // DECODE
