//! Tests of the facts that are inferred of region code: which stores' checks they prove needless; and of
//! masks of stores.
#![tactic(auto)]

#[cfg(test)]
mod masks;
#[cfg(test)]
mod needless;
#[cfg(test)]
mod places;
