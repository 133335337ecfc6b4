//! Facts about the regions that variables name, sets of them, and what follows from a set.
#![tactic(auto)]

mod adding;
mod closing;
mod fact;
mod fact_set;
mod rows;
mod spread;

pub use fact::Fact;
pub use fact_set::FactSet;
