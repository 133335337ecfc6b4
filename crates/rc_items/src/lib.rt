//! The items of a text: its structs, globals and functions.
#![tactic(auto)]

mod definitions;
mod heads;
mod outside;
mod parts;
mod produced;
mod walk;

pub use walk::{Whole, items};
