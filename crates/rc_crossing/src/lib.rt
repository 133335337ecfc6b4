//! A closed set of facts crosses what an instruction does to the variables, and stays closed: most effects
//! cost it a row and a column.
#![tactic(auto)]

mod calls;
mod crossing;

pub use calls::{fill, lacks};
pub use crossing::cross;
