//! Large programs made from a number, all of known meaning.
#![tactic(auto)]

mod program;
mod template;
mod text;

pub use program::generate;
