//! The directory of regions: what is kept of each live one, by its number.
//!
//! Of a dead region nothing is kept: the entries stand in chunks of 256 numbers, and a chunk goes with
//! its last live region.
#![tactic(auto)]

mod chunk;
mod directory;
mod entry;

pub use directory::Directory;
pub use entry::Entry;
