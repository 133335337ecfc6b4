//! Counts that follow cells: references given to the regions that values name, or taken back.
#![tactic(auto)]

mod area;
mod cell;
mod given;
mod tally;

pub use area::take_back_area;
pub use given::give_area;
pub use tally::{give, pin, take_back, target, unpin};
