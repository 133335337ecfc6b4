//! The types of expressions, and what they mean.
#![tactic(auto)]

mod expressions;
mod members;
mod nodes;

pub use expressions::{arguments, meant, spot_of, value};
