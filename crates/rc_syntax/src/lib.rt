//! Words and trees of the language: their types, and the definitions of which words a text has and
//! which tree its words have.
#![tactic(auto)]

pub mod fault;
mod first_bytes;
pub mod laws;
pub mod tree;
pub mod word;
pub mod word_laws;
