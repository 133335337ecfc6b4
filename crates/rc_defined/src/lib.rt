//! What a text defines: its structs with their fields and sizes, its functions, and the types that its
//! types are.
#![tactic(auto)]

mod building;
mod by_value;
mod context;
mod defined;
mod environment;
mod fields;
mod names;
mod places;
mod sizes;

pub use building::{gather, type_in};
pub use by_value::{before_field, before_global, cell_type, goes_on, shares_with_next};
pub use context::Context;
pub use defined::defined_type;
pub use environment::Environment;
pub use fields::{Fields, NamedField};
pub use names::{add_name, meaning};
pub use sizes::{cells_of, size_by};
