//! Names and their numbers, and what names stand for in scopes.
#![tactic(auto)]

mod entry;
mod names;
mod pile;
mod scopes;

pub use names::Names;
pub use scopes::Scopes;
