//! The live regions with their objects, and how many references to each are counted.
#![tactic(auto)]

mod areas;
mod space;

pub use space::Space;
