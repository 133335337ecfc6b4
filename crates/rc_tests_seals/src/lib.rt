//! Tests of images that carry their proofs, as bytes, and of the rules of code asked of an image.
#![tactic(auto)]

#[cfg(test)]
mod rules;
#[cfg(test)]
mod seals;
