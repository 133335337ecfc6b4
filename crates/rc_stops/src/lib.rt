//! What is used from a stop on, along every path: each stop may get a thing or set it, and leads on to
//! others. Rows of bits, one a stop, show what is used.
//!
//! `specs/` is to be read in the order of `specs/Lib.antt`: `Paths` says what is used, `Rows` what rows
//! show, and `Waits` which stops wait to be looked at.
#![tactic(auto)]

mod links;
mod looking;
mod settling;
mod stop;
mod waiting;

pub use settling::used;
pub use stop::Stop;
