//! Tests of the words of a text and of its tree. A crate that has tests of its own is proved a second
//! time with them, so they stand here, above all that they call.
#![tactic(auto)]

#[cfg(test)]
mod expressions;
#[cfg(test)]
mod spellings;
#[cfg(test)]
mod trees;
#[cfg(test)]
mod words;
