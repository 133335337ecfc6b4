//! Tests of the graphs of region code, from texts: how many points they have, at the bounds too.
#![tactic(auto)]

#[cfg(test)]
mod graphs;
#[cfg(test)]
mod repeated;
