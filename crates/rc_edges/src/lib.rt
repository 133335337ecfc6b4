//! Region code as edges that carry facts. `specs/Edges` says when an edge carries facts as an effect of
//! region code does, and `specs/EdgeLaws` what follows; `specs/Families` says when facts that are kept for
//! all functions are settled.
//!
//! The facts of all functions of region code are sets before each point, at each entry and at each exit.
//! `specs/Inferred` says when they are those that are inferred, and `specs/Calls` what the calls and
//! returns of region code fit. `specs/Searching` is the search for the greatest of them: its steps, where
//! it begins and where it ends. Region code has a greatest consistent annotation with facts, so it is
//! decided which checks may go.
#![tactic(auto)]

mod edges;
mod facts;
mod greatest;
mod inferred;
mod searching;

pub use edges::{
    edges_carry_what_effects_allow, effects_add_lists, effects_speak_of_own_variables,
    settled_families_are_consistent,
};
pub use facts::Facts;
pub use greatest::region_code_has_a_greatest_annotation;
pub use inferred::{
    annotations_of_the_code_are_enough, calls_and_returns_fit, greatest_annotations_decide,
};
pub use searching::searches_come_to_the_greatest;
