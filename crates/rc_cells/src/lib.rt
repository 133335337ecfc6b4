//! The code of a cell: what a cell holds, in 128 bits. And how the references to a region and the cells
//! change, call by call: what a heap that counts them has to do.
#![tactic(auto)]

mod code;
mod laws;

pub use code::{decode, encode};
pub use laws::{cells_follow, references_follow, sets_follow};
