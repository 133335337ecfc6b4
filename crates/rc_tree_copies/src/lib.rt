//! Copies of trees whose words stand later, or at the same places.
#![tactic(auto)]

mod lists;
mod nodes;
mod parts;
mod statements;
mod trees;

pub use rc_expression_copies::{copy_name, copy_type, same_name, same_type};
pub use trees::{copy_item, copy_items, same_items};
