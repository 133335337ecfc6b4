//! Tests of the search for the greatest proofs of an image, and of the image that is sealed with them.
#![tactic(auto)]

#[cfg(test)]
mod sealing;
#[cfg(test)]
mod searching;
