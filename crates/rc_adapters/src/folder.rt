// A shelf over the files of the system.
ghost use Rattle.std.specs.Prelude.{◌≡◌, ◌≤◌, ◌≢◌, IfErr, IfOk, length};
ghost use Rattle.rc_base.specs.declared.outside.ShelfFault.TheVariants.{Absent};
ghost use Rattle.rc_adapters.specs.Adapters.{IsFrontOf, untold_shelf};

use crate::write_front::write_front;
use rc_base::{Octets, Piece, Shelf, ShelfFault};
use std::alloc::Global;
use std::io::{ErrorKind, Read};
use std::rt::Files;

/// How many bytes are asked for at once: a system takes longer over many small reads.
const READ_BYTES: usize = 65_536;

/// The files of the system, by their paths from the folder that the program runs in. It doesn't tell
/// what they hold.
///
/// A file that is not there is a fault, as are an open, a read and a write that fails and a write that
/// takes nothing.
#[derive(Drop)]
pub struct Folder<R: Files + Drop> {
    system: R,
    faults: u64,
}

impl<R: Files + Drop> Folder<R> {
    /// The files of this system, with no fault counted.
    pub fn new(system: R) -> Folder<R>
        ensures { ⟦<Folder<R> as Shelf>⟧.state result ≡ untold_shelf 0 }
    {
        Folder { system, faults: 0 }
    }
}

/// The first `most` bytes that are read, and whether these are all.
#[tactic(auto, using(crate::proofs::Fronts::consumes_nothing))]
fn read_front<R: Read>(alloc: Global, reader: &mut R, most: usize) -> Result<Piece, ShelfFault>
    ensures front { IfOk result (IsFrontOf (R.remaining reader.old) most) }
    ensures bound { IfOk result (λ piece. length piece.bytes ≤ most) }
    ensures never_absent { IfErr result (λ fault. fault ≢ Absent) }
{
    let mut bytes = Vec::new(alloc);
    let mut buffer = [0; READ_BYTES];
    loop {
        let Ok(count) = reader.read(&mut buffer) else {
            return Err(ShelfFault::Failed);
        };
        let room = most - bytes.len();
        bytes.extend_from_slice(&buffer[..count.min(room)])?;
        if count == 0 || count > room {
            return Ok(Piece {
                bytes: Octets::new(bytes),
                whole: count == 0,
            });
        }
    }
}

impl<R: Files + Drop> Folder<R> {
    fn load_front(&self, alloc: Global, name: &str, most: usize) -> Result<Piece, ShelfFault> {
        match std::fs::open(&self.system, name) {
            Ok(mut file) => read_front(alloc, &mut file, most),
            Err(error) => Err(if error.kind() == ErrorKind::NotFound {
                ShelfFault::Absent
            } else {
                ShelfFault::Failed
            }),
        }
    }

    /// Whether all bytes were written.
    fn stores(&self, name: &str, bytes: &[u8]) -> bool {
        match std::fs::create(&self.system, name) {
            Ok(mut file) => write_front(&mut file, bytes, 0) == bytes.len(),
            Err(_) => false,
        }
    }
}

impl<R: Files + Drop> Shelf for Folder<R> {
    ghost use Rattle.rc_adapters.specs.Adapters.{untold_shelf};

    ghost state = { λ s. untold_shelf s.faults };

    fn load(&mut self, alloc: Global, name: &str, most: u32) -> Result<Piece, ShelfFault> {
        match self.load_front(alloc, name, most as usize) {
            Ok(piece) => Ok(piece),
            Err(ShelfFault::Memory) => Err(ShelfFault::Memory),
            Err(fault) => {
                self.faults = self.faults.saturating_add(1);
                Err(fault)
            }
        }
    }

    fn store(&mut self, alloc: Global, name: &str, bytes: &[u8]) -> Result<(), ShelfFault> {
        let _ = alloc;
        if self.stores(name, bytes) {
            return Ok(());
        }
        self.faults = self.faults.saturating_add(1);
        Err(ShelfFault::Failed)
    }
}
