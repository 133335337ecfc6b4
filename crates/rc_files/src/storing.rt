// Stores images.
ghost use Rattle.std.specs.Prelude.{◌≡◌, ℕ, List, IfOk};
ghost use Rattle.rc_claims.specs.Claims.{ProofsFit};
ghost use Rattle.rc_files.specs.Making.{MadeBytes};
ghost use Rattle.rc_image.specs.Spelling.{spelling};
ghost use Rattle.rc_image.specs.declared.version.Version.TheVariants.{Two};
ghost use Rattle.rc_outcomes.specs.Storing.{MadeFile};
ghost use Rattle.rc_sealed_images.specs.Spelling.{sealing};

use rc_answers::{Done, Fault};
use rc_base::{NoMemory, Shelf, ShelfFault};
use rc_claims::Proofs;
use rc_code::Image;
use rc_image::write;
use rc_sealed_images::write_sealed;
use std::alloc::Global;

/// Stores bytes under this name.
fn store_bytes<F: Shelf>(
    alloc: Global,
    bytes: &[u8],
    name: &str,
    files: &mut F,
) -> Result<Done, Fault>
    ensures { MadeBytes name.now bytes.now (F.state files.old) (F.state files.new) result }
{
    match files.store(alloc, name, bytes) {
        Ok(()) => Ok(Done::Wrote),
        Err(ShelfFault::Memory) => Err(Fault::Memory),
        Err(ShelfFault::Absent) => Err(Fault::FileFault),
        Err(ShelfFault::Failed) => Err(Fault::FileFault),
    }
}

/// Stores bytes under this name, where there was memory to make them.
fn store_made<F: Shelf>(
    alloc: Global,
    made: Result<Vec<u8>, NoMemory>,
    name: &str,
    files: &mut F,
) -> Result<Done, Fault>
    ensures { (bytes : List ℕ) → IfOk made (λ stored. stored.items ≡ bytes) → MadeBytes name.now bytes (F.state files.old) (F.state files.new) result }
{
    let Ok(bytes) = made else {
        return Err(Fault::Memory);
    };
    store_bytes(alloc, bytes.as_slice(), name, files)
}

/// Stores the bytes of an image under this name, in the newest version of the format.
pub fn store_image<F: Shelf>(
    alloc: Global,
    image: &Image,
    name: &str,
    files: &mut F,
) -> Result<Done, Fault>
    ensures { MadeFile name.now (spelling Two image.now) (F.state files.old) (F.state files.new) result }
{
    store_made(alloc, write(alloc, image), name, files)
}

/// Stores the bytes of an image that carries proofs under this name.
pub fn store_sealed<F: Shelf>(
    alloc: Global,
    image: &Image,
    proofs: &Proofs,
    name: &str,
    files: &mut F,
) -> Result<Done, Fault>
    requires { ProofsFit image.now proofs.now }
    ensures { MadeBytes name.now (sealing image.now proofs.now) (F.state files.old) (F.state files.new) result }
{
    store_made(alloc, write_sealed(alloc, image, proofs), name, files)
}
