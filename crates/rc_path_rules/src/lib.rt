//! The paths of an image, as bytes: how they are read and written, and whether each of them keeps the
//! rules on strides and on the cells that it reaches. `specs/Spelling` and `specs/Reading` of
//! `rc_fields` say which bytes a path has, and how it is read; `specs/Masks` says when the rows and
//! masks that are made on the way are right.
#![tactic(auto)]

mod masks;
mod paths;

pub use paths::{read_paths, write_paths};
