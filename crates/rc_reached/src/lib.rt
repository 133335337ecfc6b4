//! Whether the cells that a path's indices lead to are as the first: place by place, by rows, which have
//! a byte for each cell of a type, and by masks, which have a bit for each. `specs/Walks` says which
//! places indices lead to, `specs/Numbered` what a row is, and `specs/Masks` what a mask is.
#![tactic(auto)]

mod bits;
mod kinds;
mod masks;
mod nesting;
mod numbered;
mod reached;
mod walks;

pub use kinds::Kinds;
pub use masks::mask_of;
pub use nesting::{is_inside, is_nested};
pub use numbered::Numbered;
pub use reached::{has_one_kind, has_one_kind_marked, has_one_kind_numbered};
pub use walks::{cells_from, places};
