//! The line that sums up the run of a made program. `specs/Summary` says what it is.
#![tactic(auto)]

mod summary;

pub use summary::{Summary, summary_text};
