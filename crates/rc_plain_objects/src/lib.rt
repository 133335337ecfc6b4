//! Objects as the plain heap keeps them: a cell lies beside what it holds.
#![tactic(auto)]

mod object;
mod slot;

pub use object::Object;
