//! The listing of an image, a line for each instruction. `specs/Listing` says what it is.
#![tactic(auto)]

mod listing;

pub use listing::list;
