//! The tree of live regions, by slots that are used again.
#![tactic(auto)]

mod ascent;
mod record;
mod table;
mod tree;
mod ways;

pub use tree::Tree;
