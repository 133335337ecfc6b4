//! The live regions by their numbers: at which slot each stands, its parent, and how many references to
//! it are counted. A tree of slots says which region is above which. Of several regions at once it tells
//! whether one of them has a child outside, and removes them: the members of such a set are told by marks,
//! which go by slots, and between two calls there is none.
#![tactic(auto)]

mod groups;
mod registry;

pub use groups::{has_child_outside, remove_all};
pub use registry::Registry;
