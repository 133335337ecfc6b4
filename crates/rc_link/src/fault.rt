// Why the linker answers no program.
ghost use Rattle.std.specs.Prelude.{◌≡◌};

use rc_answers::LinkRefusal;
use rc_base::NoMemory;

/// Why files have no program together.
#[derive(Clone, Copy, Debug, PartialEq, Eq)]
pub enum LinkFault {
    /// Something keeps them apart: this is the first thing that does.
    Refused(LinkRefusal),
    /// There is no memory.
    Memory,
}

impl From<NoMemory> for LinkFault {
    ghost use Rattle.rc_link.specs.declared.fault.LinkFault.TheVariants.{Memory};

    ghost from_gives = { λ _ fault. fault ≡ Memory };

    fn from(_error: NoMemory) -> LinkFault {
        LinkFault::Memory
    }
}
