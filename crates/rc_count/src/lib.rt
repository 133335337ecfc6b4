//! The heap that counts references: a deletion reads the cells of its region and no others.
#![tactic(auto)]

mod count;
mod together;

pub use count::CountHeap;
