//! Where the parts of region code stand, before any node of them is made: where each begins and leads,
//! and how many temporaries a function has. What the points do is of no account here.
#![tactic(auto)]

mod heights;
mod plans;
mod sums;

pub use heights::{temporaries, width_of};
pub use plans::{
    ActPlan, BranchPlan, ForkPlan, LoopPlan, RepeatPlan, RoutinePlan, busy, past_code, past_step,
    plan_act, plan_branch, plan_fork, plan_loop, plan_repeat, plan_routine,
};
pub use sums::add;
