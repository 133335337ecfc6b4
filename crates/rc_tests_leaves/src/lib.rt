//! Tests of the crates that stand on rc_base alone, and of rc_base. A crate that has tests of its own
//! is proved a second time with them, so they stand here, above all that they call.
#![tactic(auto)]

#[cfg(test)]
mod bit_sets;
#[cfg(test)]
mod cells;
#[cfg(test)]
mod closed;
#[cfg(test)]
mod facts;
#[cfg(test)]
mod generated;
#[cfg(test)]
mod objects;
#[cfg(test)]
mod pages;
#[cfg(test)]
mod regions;
#[cfg(test)]
mod scopes;
