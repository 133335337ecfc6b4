//! From trees to programs, by the typing rules.
#![tactic(auto)]

mod bounds;
mod checking;
mod fault;

pub use checking::{check, check_limited};
pub use fault::TypeFault;
