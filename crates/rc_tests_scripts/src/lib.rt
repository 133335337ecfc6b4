//! Tests of scripts of heap commands, over the heap that counts and over the plain one, and of objects at
//! the edges of what these keep.
#![tactic(auto)]

#[cfg(test)]
mod case;
#[cfg(test)]
mod faults;
#[cfg(test)]
mod long;
#[cfg(test)]
mod objects;
#[cfg(test)]
mod random;
#[cfg(test)]
mod running;
#[cfg(test)]
mod scripts;
