//! Copies of names, types and expressions whose words stand later, or at the same places.
#![tactic(auto)]

mod expressions;
mod nodes;
mod parts;

pub use expressions::{expression, expression_option};
pub use parts::{add, boxed, copy_name, copy_type, same_name, same_type, spot};
