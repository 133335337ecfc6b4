// Why words have no tree.
ghost use Rattle.std.specs.Prelude.{◌≡◌};

use std::alloc::{AllocError, AllocFailed};

/// Why a parser gives no tree.
#[derive(Clone, Copy, Debug, PartialEq, Eq)]
pub enum ParseFault {
    /// The words are no tree, with the line of the first word that can't follow those before it,
    /// or of the last word where each can; 1 where there is no word.
    Syntax(u32),
    /// A word is too deep, with its line, and the words before it can be followed.
    Deep(u32),
    /// Out of memory.
    Memory,
}

impl From<AllocError> for ParseFault {
    ghost use Rattle.rc_syntax.specs.declared.fault.ParseFault.TheVariants.{Memory};

    ghost from_gives = { λ _ fault. fault ≡ Memory };

    fn from(_error: AllocError) -> ParseFault {
        ParseFault::Memory
    }
}

impl<T: Drop> From<AllocFailed<T>> for ParseFault {
    ghost use Rattle.rc_syntax.specs.declared.fault.ParseFault.TheVariants.{Memory};

    ghost from_gives = { λ _ fault. fault ≡ Memory };

    fn from(_error: AllocFailed<T>) -> ParseFault {
        ParseFault::Memory
    }
}
