// Why an evaluation goes no further.

ghost use Rattle.std.specs.Prelude.{◌≡◌};
ghost use Rattle.rc_base.specs.declared.ends.End.TheVariants.{Trapped};
ghost use Rattle.rc_base.specs.declared.ends.RunFault.TheVariants.{Memory};
ghost use Rattle.rc_values.specs.declared.stop.Stop.TheVariants.{Cut, Ends};

use rc_base::{End, RunFault, Trap};
use std::alloc::{AllocError, AllocFailed};

/// Why an evaluation goes no further.
#[derive(Clone, Copy)]
pub enum Stop {
    /// The run ends.
    Ends(End),
    /// A deleted region was touched at this line. No run of a whole program comes here.
    Stale(u32),
    /// A fault cuts the run short.
    Cut(RunFault),
}

impl From<AllocError> for Stop {
    ghost from_gives = { λ _ stop. stop ≡ Cut Memory };

    fn from(_error: AllocError) -> Stop {
        Stop::Cut(RunFault::Memory)
    }
}

impl<T: Drop> From<AllocFailed<T>> for Stop {
    ghost from_gives = { λ _ stop. stop ≡ Cut Memory };

    fn from(_error: AllocFailed<T>) -> Stop {
        Stop::Cut(RunFault::Memory)
    }
}

pub fn trap(trap: Trap, line: u32) -> Stop
    ensures { result ≡ Ends (Trapped trap line) }
{
    Stop::Ends(End::Trapped(trap, line))
}
