//! Tests of elaboration, from texts to region code: the code of small programs, programs at the bounds,
//! and deep trees; and that their live locals are listed.
#![tactic(auto)]

#[cfg(test)]
mod bounds;
#[cfg(test)]
mod codes;
#[cfg(test)]
mod listing;
#[cfg(test)]
mod lives;
#[cfg(test)]
mod repeated;
