//! Tests of the text of a program of tasks.
#![tactic(auto)]

#[cfg(test)]
mod texts;
