// The outside: what gives bytes, what takes them, and what keeps files.
use crate::Octets;
use std::alloc::{AllocError, AllocFailed, Global};

/// A call on the outside failed, and its count of faults rose.
#[derive(Clone, Copy, Debug, PartialEq, Eq)]
pub struct Failed;

/// There was no memory.
#[derive(Clone, Copy, Debug, PartialEq, Eq)]
pub struct NoMemory;

impl From<AllocError> for NoMemory {
    ghost from_gives = { λ _ _. Unit {0} };

    fn from(_error: AllocError) -> NoMemory {
        NoMemory
    }
}

impl<T: Drop> From<AllocFailed<T>> for NoMemory {
    ghost from_gives = { λ _ _. Unit {0} };

    fn from(_error: AllocFailed<T>) -> NoMemory {
        NoMemory
    }
}

/// What gives bytes, as standard input does.
pub trait Source {
    ghost use Rattle.rc_base.specs.Sources.{SourceState, Nexts};

    ghost state: { Self → SourceState };

    /// The next byte, or none where there is no more. After a failure nothing is lost.
    fn next(&mut self) -> Result<Option<u8>, Failed>
        ensures { Nexts (state self.old) (state self.new) result };
}

/// What takes bytes, as standard output does.
pub trait Sink {
    ghost use Rattle.rc_base.specs.Sinks.{SinkState, Puts, Flushes};

    ghost state: { Self → SinkState };

    /// Takes a byte. After a failure it hasn't taken it.
    fn put(&mut self, byte: u8) -> Result<(), Failed>
        ensures { Puts byte (state self.old) (state self.new) result };

    /// Passes on all that it took. After a failure it may have passed on a part.
    fn flush(&mut self) -> Result<(), Failed>
        ensures { Flushes (state self.old) (state self.new) result };
}

/// The first bytes of a file.
#[derive(Debug, Drop)]
pub struct Piece {
    pub bytes: Octets,
    /// Whether these are all bytes of the file.
    pub whole: bool,
}

/// Why a file was not loaded or not stored.
#[derive(Clone, Copy, Debug, PartialEq, Eq)]
pub enum ShelfFault {
    /// There is no file of that name. An answer of `load` alone.
    Absent,
    Failed,
    Memory,
}

impl From<AllocError> for ShelfFault {
    ghost use Rattle.std.specs.Prelude.{◌≡◌};
    ghost use Rattle.rc_base.specs.declared.outside.ShelfFault.TheVariants.{Memory};

    ghost from_gives = { λ _ fault. fault ≡ Memory };

    fn from(_error: AllocError) -> ShelfFault {
        ShelfFault::Memory
    }
}

/// What keeps files by name.
pub trait Shelf {
    ghost use Rattle.rc_base.specs.Shelves.{ShelfState, Loads, Stores};

    ghost state: { Self → ShelfState };

    /// The first `most` bytes of a file.
    fn load(&mut self, alloc: Global, name: &str, most: u32) -> Result<Piece, ShelfFault>
        ensures { Loads name.now most (state self.old) (state self.new) result };

    /// Puts the bytes under the name. After a fault nothing is known of what stands under it.
    fn store(&mut self, alloc: Global, name: &str, bytes: &[u8]) -> Result<(), ShelfFault>
        ensures { Stores name.now bytes.now (state self.old) (state self.new) result };
}
