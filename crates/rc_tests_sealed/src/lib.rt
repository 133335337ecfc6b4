//! Tests of the crates of images that carry their proofs: bits that are facts, what is used from a stop
//! on, which functions may delete, which instructions don't pin what they have to, and what is told of
//! small images that are verified.
#![tactic(auto)]

#[cfg(test)]
mod bits;
#[cfg(test)]
mod claimed;
#[cfg(test)]
mod pins;
#[cfg(test)]
mod stops;
#[cfg(test)]
mod verified;
