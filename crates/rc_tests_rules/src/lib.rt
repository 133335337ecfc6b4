//! Tests of the rules of types, of the places of deletions, and of the stages of a text together.
#![tactic(auto)]

#[cfg(test)]
mod builtins;
#[cfg(test)]
mod compiling;
#[cfg(test)]
mod deletions;
#[cfg(test)]
mod rules;
