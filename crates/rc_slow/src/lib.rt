//! The slow way to run a program: an evaluator that does what the meaning of the program says, node by
//! node. What waits, in calls and round them, lies in its own lists.
//!
//! `evaluate` lays out the program's structs, makes the first heap and the call of `main`, and makes step
//! after step. Where the input tells its bytes, its end and its acts are those of the program's meaning,
//! and no run comes to a deleted region, which rc_safety shows of the meaning. The laws say why: what is
//! kept of the world is enough, the steps come to what the run comes to at once, each step leaves less to
//! do or takes a turn, and what was done stays done.
#![tactic(auto)]

mod evaluating;
mod laws;
mod machine;
mod outside;
mod run;

pub use evaluating::evaluate;
pub use laws::{a_step_leaves_less, acts_stay_done, the_machine_is_right, what_is_kept_is_enough};
