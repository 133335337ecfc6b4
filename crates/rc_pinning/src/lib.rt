//! The first instruction of an image's function that doesn't pin what it has to. `specs/Stops` says what
//! each instruction is to a path, so that what is used behind it is known, `Operands` which operands are
//! numbers, `Tables` how pins are looked at, and `Unpinned` what is told.
#![tactic(auto)]

ghost use Rattle.rc_pinning.specs.Stops.{StopsTell};

mod numbers;
mod operands;
mod pins;
mod search;
mod stops;
mod tables;

pub use search::first_unpinned;
pub use stops::used_in;

/// By its stops a local is used exactly where it is.
pub fn stops_tell_what_is_used()
    ensures { StopsTell }
{}
