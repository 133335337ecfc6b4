//! Reads expressions and types: the longest that stands in a list of words from a place on.
#![tactic(auto)]

mod calls;
mod casts;
mod expressions;
mod nodes;
mod operands;
mod operators;
mod postfixes;
mod types;

pub use expressions::{expression, unary};
pub use nodes::{add, boxed};
pub use rc_syntax::fault::ParseFault;
pub use types::{base, base_begins, stars, type_name};
