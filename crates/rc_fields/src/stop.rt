// Why reading stops.
ghost use Rattle.std.specs.Prelude.{◌≡◌};
ghost use Rattle.rc_fields.specs.declared.stop.Stop.TheVariants.{Memory};

use std::alloc::{AllocError, AllocFailed};

/// Why reading stops.
#[derive(Clone, Copy, Debug)]
pub enum Stop {
    /// There was no memory.
    Memory,
    /// The first bytes are not those of an image.
    Magic,
    /// The fifth byte is no known version.
    Version,
    /// The bytes end inside a field.
    Short,
    /// Bytes follow the image.
    Extra,
    /// A field breaks a rule. So many bytes are left from its first byte to the end.
    Field(usize),
}

impl From<AllocError> for Stop {
    ghost from_gives = { λ _ e. e ≡ Memory };

    fn from(_e: AllocError) -> Stop {
        Stop::Memory
    }
}

impl<T: Drop> From<AllocFailed<T>> for Stop {
    ghost from_gives = { λ _ e. e ≡ Memory };

    fn from(_e: AllocFailed<T>) -> Stop {
        Stop::Memory
    }
}
