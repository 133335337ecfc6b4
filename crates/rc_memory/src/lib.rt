//! What the evaluator of programs has in its memory: objects, and the regions of a heap. A deleted region
//! keeps its number and its parent alone.
//!
//! Each function answers what the language says of the same values, cells and places; what changes the
//! heap does to it what the operations of the language do to a world that keeps no more.
#![tactic(auto)]

mod heap;
mod region;

pub use heap::Heap;
