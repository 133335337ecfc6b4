//! What functions hand on to one another: entries to first points, calls to entries, and returns to exits
//! (`specs/Boundaries` of rc_edges), by sets of facts that are read under other names, and lists of sets of
//! which some lose facts (`specs/Reading` of rc_edges).
#![tactic(auto)]

mod calls;
mod entries;
mod losing;
mod reading;
mod returns;

pub use calls::call_at;
pub use entries::begin;
pub use losing::lose;
pub use returns::{Exit, leave_at};
