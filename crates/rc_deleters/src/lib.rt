//! Which functions of an image may delete: those that have a deletion, and those that call one that may.
//! Each deletion and each call is a stop, and a path over these leads from a function's first stop to a
//! deletion exactly where it may. `specs/Calls` has the stops.
#![tactic(auto)]

mod blocks;
mod deleters;

pub use deleters::{Deleters, deleters_of};
