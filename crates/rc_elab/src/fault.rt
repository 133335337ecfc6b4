// Why a program isn't translated.
ghost use Rattle.std.specs.Prelude.{◌≡◌};

use std::alloc::AllocError;

/// Why a program isn't translated.
#[derive(Clone, Copy, Debug, PartialEq, Eq)]
pub enum ElabFault {
    /// A function has more than 128 region variables; the line of its first word.
    Variables(u32),
    /// The program has more than 65,536 points.
    Points,
    /// There is no memory.
    Memory,
}

impl From<AllocError> for ElabFault {
    ghost use Rattle.rc_elab.specs.declared.fault.ElabFault.TheVariants.{Memory};

    ghost from_gives = { λ _ fault. fault ≡ Memory };

    fn from(_error: AllocError) -> ElabFault {
        ElabFault::Memory
    }
}
