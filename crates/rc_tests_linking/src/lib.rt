//! Tests of files that are checked by themselves and linked, and of what that is made of.
#![tactic(auto)]

#[cfg(test)]
mod copies;
#[cfg(test)]
mod files;
