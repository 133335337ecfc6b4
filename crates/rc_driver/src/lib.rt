//! The commands of `rc`: what the words on the command line ask is done and told. What a request comes to
//! is defined in rc_outcomes, specs/Outcome.
//!
//! `run` runs the image of a program by the machine over the heap, and `tasks` the same with the lines that
//! run its tasks; `compile` stores it, `link` that of the program that several files are together, and
//! `exec` runs one that was stored. `seal` stores an image with proofs of which of its checks are not
//! needed, and `exec` looks at these before it leaves a check out. `slow` runs a program node by node, `checks` reports which of its checks
//! are kept, and `heap` runs a script of heap commands. `soak` makes a large program from a number, compiles
//! and runs it, and writes a line that sums it up.
#![tactic(auto)]

mod admit;
mod check;
mod compile;
mod evaluation;
mod execute;
mod link;
mod made;
mod program;
mod run;
mod running;
mod script_file;
mod seal;
mod soak;
mod tasks;

pub use program::rc_main;
pub use rc_adapters::{Folder, StdSink, StdSource};
pub use rc_answers::{Done, Fault, ImageRefusal, status_of};
