//! The bytes of an image that may carry its proofs. `specs/Spelling` says which bytes an image has with
//! its proofs, `specs/Carrying` which bytes carry an image and what with it, and `specs/Reading` how
//! they are read from left to right, and where a reader stops.
#![tactic(auto)]

mod bits;
mod claims;
mod counts;
mod laws;
mod reading;
mod writing;

pub use laws::no_sealed_image_begins_another;
pub use reading::read_sealed;
pub use writing::write_sealed;
