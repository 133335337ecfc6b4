//! Items of several files that don't go together.
#![tactic(auto)]

mod clash;
mod earlier;
mod kept;
mod pairs;
mod words;

pub use clash::Clash;
pub use kept::Earlier;
