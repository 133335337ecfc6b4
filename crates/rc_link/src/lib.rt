//! Several files to one program.
#![tactic(auto)]

mod fault;
mod joining;
mod linking;
mod missing;
mod reasons;

pub use fault::LinkFault;
pub use linking::link;
