//! The region code of statements, functions and whole programs: `region_parts` is the translation.
#![tactic(auto)]

mod program;
mod statements;

pub use program::region_parts;
