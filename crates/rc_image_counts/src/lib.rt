//! Counts of a function of an image: how many operands an instruction takes and gives, and so how many
//! stand before each; and how many of its locals are regions or pointers.
//! `specs/Heights` has what stands before an instruction.
#![tactic(auto)]

mod locals;
mod operands;

pub use locals::{count_regional, is_regional};
pub use operands::{function_of, height_behind, instruction_of, lowest};
