//! Shapes of the functions of an image: how many variables a function has, and where each of its locals
//! and stack places stands among them. `specs/Shapes` says what a shape has.
#![tactic(auto)]

mod counts;
mod shape;
mod tables;

pub use counts::first_wide;
pub use shape::{Shape, copies_in, shape_of};
