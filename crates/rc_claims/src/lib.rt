//! What an image may claim of regions: facts at the entry and at the exit of each function, and before
//! targets of its jumps, as bits.
//!
//! `specs/` is to be read in the order of `specs/Lib.antt`: `Counts` has the variables that claims speak
//! of, `Bits` how bits are facts, and `Claims` when proofs fit an image.
#![tactic(auto)]

mod bits;
mod proofs;

pub use bits::has_fact;
pub use proofs::{Frame, Known, Proofs};
