//! Images sealed with their greatest proofs. An image whose calls and deletions pin what is used behind
//! them gets the greatest facts that prove it but for its checks, and a mark at each store whose check
//! these prove.
//!
//! `specs/Claiming` says which proofs are those of sets of facts, `Marking` what an image with marks is,
//! and `Finding` what is found of an image before it is marked. What is answered in the end is said by
//! `Sealed` of rc_greatest_proofs.
#![tactic(auto)]

mod claims;
mod finding;
mod marking;
mod numbers;
mod pinned;
mod proving;

pub use proving::prove;
