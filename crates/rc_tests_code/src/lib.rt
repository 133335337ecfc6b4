//! Tests of stack code in lists (what an expression with a fork becomes), of compiling, from texts to the
//! listings of images, and of marks: which stores of a program's image make no check.
#![tactic(auto)]

#[cfg(test)]
mod expressions;
#[cfg(test)]
mod listings;
#[cfg(test)]
mod marks;
