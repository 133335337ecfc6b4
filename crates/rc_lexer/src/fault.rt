// Refusals.
ghost use Rattle.std.specs.Prelude.{◌≡◌};

use std::alloc::{AllocError, AllocFailed};

/// Why the lexer gives no words.
#[derive(Clone, Copy, Debug, PartialEq, Eq)]
pub enum LexFault {
    /// The text has more than 1,048,576 bytes.
    TooLong,
    /// The first place that can't be read is a byte on this line that begins no word.
    Byte(u32),
    /// The first place that can't be read is a number, a literal or a comment that begins on this
    /// line and is not well formed.
    Token(u32),
    /// Want of memory.
    Memory,
}

impl From<AllocError> for LexFault {
    ghost use Rattle.rc_lexer.specs.declared.fault.LexFault.TheVariants.{Memory};

    ghost from_gives = { λ _ e. e ≡ Memory };

    fn from(_error: AllocError) -> Self {
        LexFault::Memory
    }
}

impl<T: Drop> From<AllocFailed<T>> for LexFault {
    ghost use Rattle.rc_lexer.specs.declared.fault.LexFault.TheVariants.{Memory};

    ghost from_gives = { λ _ e. e ≡ Memory };

    fn from(_error: AllocFailed<T>) -> Self {
        LexFault::Memory
    }
}
