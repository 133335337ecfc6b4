//! Ways through the functions of an image: what a search for the greatest proofs has to know of each
//! instruction, and how many variables the facts of each function's sets speak of.
//!
//! `specs/Walking` says what is known of a function before its spots are made, `Spots` and `Counted`
//! what is made of it, and `Routed` what is made of all functions.
#![tactic(auto)]

mod counting;
mod numbers;
mod routes;
mod spots;
mod tables;
mod walk;

pub use routes::{Routes, routes_of};
