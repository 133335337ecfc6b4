// Stores an image in the newest version of the format.
ghost use Rattle.std.specs.Prelude.{Option};
ghost use Rattle.rc_base.specs.Sinks.{SinkState};
ghost use Rattle.rc_base.specs.Sources.{SourceState};
ghost use Rattle.rc_files.specs.Making.{UpgradesOf};
ghost use Rattle.rc_outcomes.specs.Outside.{outside};
ghost use Rattle.rc_outcomes.specs.Performing.{Performs};
ghost use Rattle.rc_requests.specs.Request.{Request};
ghost use Rattle.rc_store.specs.Kept.{KeptStore};

use crate::image_file::{NoImage, load_image};
use crate::storing::store_image;
use rc_answers::{Done, Fault};
use rc_base::Shelf;
use std::alloc::Global;

/// Loads the image of one file and stores it under another name, for a request that asks that. Proofs
/// are passed over.
pub fn upgrade_image<F: Shelf>(
    alloc: Global,
    from: &str,
    to: &str,
    files: &mut F,
) -> Result<Done, Fault>
    ensures { (request : Option Request) (input : SourceState) (out err : SinkState) (heap : KeptStore) → UpgradesOf request from.now to.now → Performs request (outside (F.state files.old) input out err heap) (outside (F.state files.new) input out err heap) result }
{
    match load_image(alloc, from, files) {
        Ok(carried) => store_image(alloc, &carried.image, to, files),
        Err(NoImage::Refused(refusal)) => Ok(Done::ImageRefused(refusal)),
        Err(NoImage::Failed(fault)) => Err(fault),
    }
}
