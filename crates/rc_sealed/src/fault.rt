// Why an image isn't sealed, or isn't run as a sealed one.
ghost use Rattle.std.specs.Prelude.{◌≡◌};

use rc_base::NoMemory;

/// Why proofs of an image aren't accepted, or none are given for it, with the numbers of a function and
/// of an instruction of it.
#[derive(Clone, Copy, Debug, PartialEq, Eq)]
pub enum ProofFault {
    /// Facts don't prove that instruction, first of all that fail.
    Facts(u32, u32),
    /// That instruction doesn't pin all that it has to, first of all that fail.
    Pins(u32, u32),
    /// That function has more variables than a set of facts, first of all that do.
    Wide(u32),
    /// There was no memory.
    Memory,
}

impl From<NoMemory> for ProofFault {
    ghost use Rattle.rc_sealed.specs.declared.fault.ProofFault.TheVariants.{Memory};

    ghost from_gives = { λ _ fault. fault ≡ Memory };

    fn from(_error: NoMemory) -> ProofFault {
        ProofFault::Memory
    }
}
