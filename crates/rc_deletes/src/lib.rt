//! The typing rules of the language, and the pass that looks where regions may be deleted.
#![tactic(auto)]

pub mod builtin;
mod check;
pub mod deletes;
pub mod fault;
pub mod sort;

pub use builtin::{Builtin, Parameter};
pub use check::check_deletes;
pub use deletes::DeletesFault;
pub use fault::{Fault, Refusal};
pub use sort::Sort;
