//! Loading: the rules of code, which an image from anyone has to keep before it is run. `specs/` is to
//! be read in the order of `specs/Lib.antt`: `Violations` says which violation is the first, and
//! `Unmarked` what an image is without its marks.
#![tactic(auto)]

mod code;
mod demands;
mod fault;
mod laws;
mod loading;
mod names;
mod operand;
mod taken;

pub use fault::{LoadFault, Rule, Violation};
pub use laws::{an_image_without_marks_is_faithful, there_is_one_first_violation};
pub use loading::{load, sound};
