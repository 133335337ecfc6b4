//! The region code of expressions and places.
#![tactic(auto)]

mod expressions;
mod into;
mod places;

pub use expressions::{arguments, expression};
pub use places::place;
