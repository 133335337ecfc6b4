//! Sets of facts before targets, as a search for the greatest proofs lowers them: what follows from one is
//! read off without closing it.
#![tactic(auto)]

mod target_set;

pub use target_set::TargetSet;
