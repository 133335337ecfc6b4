//! Whether the proofs that an image carries are right: facts prove each instruction, and calls and
//! deletions pin what is used behind them. An image that carries right proofs is loaded with its marks.
//! `specs/Firsts` says which instruction is told where they aren't.
#![tactic(auto)]

mod exits;
mod faults;
mod numbers;
mod passing;
mod verifying;

pub use exits::exits_of;
pub use passing::first_unproved;
pub use verifying::verify;
