//! Where the run goes from an instruction, as the numbers of the sets of targets that a search for the
//! greatest proofs lowers. `specs/Ranks` says which table has these numbers.
#![tactic(auto)]

mod leads;
mod ranks;
mod ways;

pub use leads::{Leads, leads_at};
pub use ranks::ranks_of;
