//! Facts carried over the instructions of a function.
#![tactic(auto)]

ghost use Rattle.rc_carrying.specs.Asked.{PassedIsProved, ProvedIsPassed};
ghost use Rattle.rc_carrying.specs.Closing.{LeftIsCarried, LeftIsClosed};

mod leaving;
mod passing;
mod step;

pub use leaving::carry;
pub use passing::{restart, visit};
pub use step::Step;

/// What is left of a closed set of facts behind an instruction is closed (`closed`). Where the set has
/// what follows from the facts before the instruction, it has what follows from the carried ones
/// (`carried`).
pub fn what_is_left_is_carried()
    ensures closed { LeftIsClosed }
    ensures carried { LeftIsCarried }
    ensures proved { PassedIsProved }
    ensures passed { ProvedIsPassed }
{}
