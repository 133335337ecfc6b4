// Seals the image of a file.
ghost use Rattle.std.specs.Prelude.{◌≡◌, Option};
ghost use Rattle.rc_base.specs.Sinks.{SinkState};
ghost use Rattle.rc_base.specs.Sources.{SourceState};
ghost use Rattle.rc_code.specs.Soundness.{Sound};
ghost use Rattle.rc_driver.specs.Sealing.{Sealed, SealsOf, not_sealed};
ghost use Rattle.rc_outcomes.specs.Outside.{outside};
ghost use Rattle.rc_outcomes.specs.Performing.{Performs};
ghost use Rattle.rc_requests.specs.Request.{Request};
ghost use Rattle.rc_store.specs.Kept.{KeptStore};

use crate::admit::{NotRun, sound_code, unproven};
use rc_answers::{Done, Fault};
use rc_base::Shelf;
use rc_code::Image;
use rc_files::{NoImage, load_image, store_sealed};
use rc_seal::prove;
use std::alloc::Global;

/// What is answered where an image isn't sealed.
fn not_sealed(reason: NotRun) -> Result<Done, Fault>
    ensures { result ≡ not_sealed reason }
{
    match reason {
        NotRun::Refused(refusal) => Ok(Done::ImageRefused(refusal)),
        NotRun::Memory => Err(Fault::Memory),
    }
}

/// Stores an image whose code keeps the rules under this name, with the greatest proofs of it and with a
/// mark at each store whose check they prove; or refuses it.
fn seal_sound<F: Shelf>(alloc: Global, image: Image, to: &str, files: &mut F) -> Result<Done, Fault>
    requires { Sound image }
    ensures { Sealed image to.now (F.state files.old) (F.state files.new) result }
{
    match prove(alloc, image) {
        Ok((sealed, proofs)) => store_sealed(alloc, &sealed, &proofs, to, files),
        Err(fault) => not_sealed(unproven(fault)),
    }
}

/// Stores an image so, or refuses it, also for a rule that its code breaks.
fn seal<F: Shelf>(alloc: Global, image: Image, to: &str, files: &mut F) -> Result<Done, Fault>
    ensures { Sealed image to.now (F.state files.old) (F.state files.new) result }
{
    match sound_code(alloc, &image) {
        Ok(()) => seal_sound(alloc, image, to, files),
        Err(reason) => not_sealed(reason),
    }
}

/// Loads the image of one file and stores it sealed under another name, for a request that asks that.
/// Marks and proofs that the file has are passed over.
pub fn seal_image<F: Shelf>(
    alloc: Global,
    from: &str,
    to: &str,
    files: &mut F,
) -> Result<Done, Fault>
    ensures { (request : Option Request) (input : SourceState) (out err : SinkState) (heap : KeptStore) → SealsOf request from.now to.now → Performs request (outside (F.state files.old) input out err heap) (outside (F.state files.new) input out err heap) result }
{
    match load_image(alloc, from, files) {
        Ok(carried) => seal(alloc, carried.image, to, files),
        Err(NoImage::Refused(refusal)) => Ok(Done::ImageRefused(refusal)),
        Err(NoImage::Failed(fault)) => Err(fault),
    }
}
