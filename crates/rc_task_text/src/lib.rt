//! The text of a program of tasks.
#![tactic(auto)]

mod writing;

pub use writing::task_text;
