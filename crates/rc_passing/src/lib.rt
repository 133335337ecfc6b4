//! A set of facts is led over the edges of a function: in place along the one edge to a point that is no
//! head, and into the sets of heads, which keep what it has too.
#![tactic(auto)]

mod leading;
mod losses;

pub use leading::{Setting, lead};
pub use losses::{Loss, note};
