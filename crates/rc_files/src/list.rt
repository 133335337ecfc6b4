// Lists the image of a file.
ghost use Rattle.std.specs.Prelude.{Option};
ghost use Rattle.rc_base.specs.Sinks.{SinkState};
ghost use Rattle.rc_base.specs.Sources.{SourceState};
ghost use Rattle.rc_files.specs.Making.{ListsOf};
ghost use Rattle.rc_outcomes.specs.Outside.{outside};
ghost use Rattle.rc_outcomes.specs.Performing.{Performs};
ghost use Rattle.rc_outcomes.specs.Reporting.{MadeReport};
ghost use Rattle.rc_requests.specs.Request.{Request};
ghost use Rattle.rc_store.specs.Kept.{KeptStore};
ghost use Rattle.rc_listing.specs.Listing.{listing};

use crate::image_file::{NoImage, load_image};
use rc_answers::{Done, Fault};
use rc_base::{Shelf, Sink};
use rc_code::Image;
use rc_listing::list;
use rc_outcomes::report;
use std::alloc::Global;

/// Writes the listing of an image.
fn report_image<O: Sink>(alloc: Global, image: &Image, out: &mut O) -> Result<Done, Fault>
    ensures { MadeReport (listing image.now) (O.state out.old) (O.state out.new) result }
{
    report(out, list(alloc, image))
}

/// Loads the image of a file and writes its listing, for a request that asks that. Proofs are passed
/// over.
pub fn list_image<F: Shelf, O: Sink>(
    alloc: Global,
    name: &str,
    files: &mut F,
    out: &mut O,
) -> Result<Done, Fault>
    ensures { (request : Option Request) (input : SourceState) (err : SinkState) (heap : KeptStore) → ListsOf request name.now → Performs request (outside (F.state files.old) input (O.state out.old) err heap) (outside (F.state files.new) input (O.state out.new) err heap) result }
{
    match load_image(alloc, name, files) {
        Ok(carried) => report_image(alloc, &carried.image, out),
        Err(NoImage::Refused(refusal)) => Ok(Done::ImageRefused(refusal)),
        Err(NoImage::Failed(fault)) => Err(fault),
    }
}
