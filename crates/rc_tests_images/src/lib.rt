//! Tests of images, and of the parts of a machine: the stack of calls and the short form of images.
#![tactic(auto)]

#[cfg(test)]
mod bytes;
#[cfg(test)]
mod decoding;
#[cfg(test)]
mod paths;
#[cfg(test)]
mod piles;
#[cfg(test)]
mod table;
