//! Which checks of region code may go. `specs/Masks` says what a mask of stores marks.
#![tactic(auto)]

mod asking;
mod deciding;
mod mask;
mod removal;
mod walking;

pub use deciding::needless;
pub use mask::Mask;
pub use removal::removable;
