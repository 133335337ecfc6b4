//! From the bytes of a text to its words.
#![tactic(auto)]

mod byte_set;
mod class;
pub mod fault;
pub mod lex;
mod literal;
mod number;
mod piece;
