//! Which checks of a function the facts of a search prove: those whose facts follow where their stores
//! stand. `specs/Checked` says what that is, and `specs/Going` what a pass over the function has shown
//! when it comes to an instruction.
#![tactic(auto)]

mod asking;
mod marks;

pub use marks::marks_of;
