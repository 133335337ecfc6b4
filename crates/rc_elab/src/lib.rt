//! From programs to the region language: `elaborate` answers a program's region code, where it keeps
//! within the bounds of region variables and points, which `count` tells from the program alone.
#![tactic(auto)]

mod budget;
mod counting;
mod elaboration;
mod fault;
mod points;
mod statements;
mod temporaries;
mod variables;

pub use counting::count;
pub use elaboration::elaborate;
pub use fault::ElabFault;
