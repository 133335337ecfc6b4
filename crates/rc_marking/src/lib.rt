//! Marks at the stores of an image: `specs/Marking` says what an image with marks is. The marks of region
//! code's stores are given in the order in which its image has them (`specs/InOrder` of rc_marks), so that
//! those stores make no check that a mask names.
#![tactic(auto)]

mod images;
mod laws;
mod marking;
mod marks;
mod reached;

pub use images::marked;
pub use laws::{marks_of_images_are_numbered, reports_tell_of_images};
