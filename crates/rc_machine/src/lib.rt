//! The machine: loaded images run exactly as they mean.
//!
//! What `run` promises is `RunsImage` of `specs/Image`. It says what was done outside by `Acted`, `ReadFailed`
//! and `WriteFailed` of `specs/Stepping`, and what a front of acts is by `specs/Fronts`. Nothing else needs to
//! be read: `GoesOn` and the rest of `specs/Stepping` are what one instruction does, `specs/Coming` how far a
//! machine has come in its loop and where it left, and `specs/Runs` what a run comes to from where it stands,
//! but for `stop_of` and `IfExits`. The functions of the loop promise these to one another.
//!
//! Runs that are cut short: a machine that has come somewhere in the run of an image has done a front of
//! the acts that the image means, and where `main` gives a value nothing is pinned (`specs/Fronts`).
#![tactic(auto)]

mod end;
mod fronts;
mod machine;
mod rounds;
mod start;
mod step;
mod whole;

pub use end::ImageEnd;
pub use fronts::{acts_so_far_are_a_front, nothing_is_pinned_behind_an_exit};
pub use start::{run, run_first};
