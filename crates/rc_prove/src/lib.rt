//! The greatest facts of an image that prove it but for its checks: a search downward from all facts.
//!
//! `specs/` is to be read in the order of `specs/Lib.antt`: `Sets` says which sets are lowered, `Spots`
//! and `Visiting` what a visit of an instruction does to them, `Passing` what holds between visits,
//! `Lowering` what a pass over a function does, `Family` what a round over all functions does, `Starting`
//! where the search begins, and `TheGreatest` what it finds.
//!
//! Rounds over all functions prove the answer: in the last one no set loses a fact. Before them, parts of
//! functions are gone over as the agenda of rc_prove_parts has them, so that few rounds are left. No proof
//! rests on the agenda being complete.
#![tactic(auto)]

mod answer;
mod losing;
mod lower;
mod meeting;
mod parts;
mod reading;
mod released;
mod rounds;
mod settling;
mod start;
mod visit;

pub use answer::greatest;
pub use lower::begin;
pub use meeting::restart;
pub use start::{Claims, Counts};
