//! Claims of an image as lists of facts, with names for their variables, and the frame of an instruction.
//! `specs/Naming` says which facts are listed.
#![tactic(auto)]

mod frames;
mod lists;

pub use frames::frame_at;
pub use lists::{add_claims, numbers_below};
