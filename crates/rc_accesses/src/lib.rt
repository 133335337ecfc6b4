//! The types of a function's expressions and places, and the accesses of its places.
#![tactic(auto)]

mod places;
mod scope;
mod types;

pub use places::{access, narrowed, together, width};
pub use scope::Scope;
pub use types::{
    arithmetic, expression_type, global_type, index_type, local_type, number, parameter_types,
    pointer_to, pointer_type, value_type,
};
