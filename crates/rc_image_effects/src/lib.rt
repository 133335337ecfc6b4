//! What an instruction of an image does to the variables of its function, as an effect that facts are
//! carried over. `specs/Arguments` has the places of a call's arguments.
#![tactic(auto)]

mod effects;

pub use effects::{Places, of_call, of_other};
