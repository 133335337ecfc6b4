//! Files by themselves, as they are checked before they are linked.
#![tactic(auto)]

mod checking;
mod names;
mod stubs;
mod units;

pub use checking::unit;
pub use names::{add_functions, is_built_in};
pub use units::Unit;
