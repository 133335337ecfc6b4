//! Which locals are live at the deleting points of region code.
#![tactic(auto)]

mod effects;
mod program;
mod rows;
mod touches;
mod walk;

pub use program::{live, none};
