//! The greatest consistent facts of region code: at the heads, at the entries and at the exits of its
//! functions.
//!
//! Walks go from head to head: a working set is the head's, and goes over the points behind it in place. A
//! round of walks over all functions, in which no set loses a fact, shows that the facts are consistent.
//! Before it, heads have their turns while they wait for one.
#![tactic(auto)]

mod graphs;
mod rounds;
mod start;
mod steps;
mod turns;
mod waiting;
mod walk;

pub use graphs::graphs_of;
pub use rounds::{infer, infer_over};
