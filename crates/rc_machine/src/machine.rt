// What stands between two instructions.

use rc_ops::{Counter, Running};
use rc_pile::Pile;

/// A machine between two instructions.
#[derive(Drop)]
pub struct Machine {
    /// The function that runs.
    pub running: Running,
    /// Its locals and operands, and those of the calls that wait.
    pub pile: Pile,
    /// The instruction that comes next, and the turns that are left.
    pub at: Counter,
}
