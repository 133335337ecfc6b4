// Stores the image of a file's program.
ghost use Rattle.std.specs.Prelude.{Option};
ghost use Rattle.rc_base.specs.Sinks.{SinkState};
ghost use Rattle.rc_base.specs.Sources.{SourceState};
ghost use Rattle.rc_outcomes.specs.Outside.{outside};
ghost use Rattle.rc_outcomes.specs.Performing.{Performs};
ghost use Rattle.rc_requests.specs.Request.{Request};
ghost use Rattle.rc_store.specs.Kept.{KeptStore};
ghost use Rattle.rc_driver.specs.Compiling.{CompilesOf, CompiledText};

use rc_answers::{Done, Fault};
use rc_base::Shelf;
use rc_build::compile;
use rc_compile::{CompileFault, Refusal};
use rc_files::{NoText, load_text, store_image};
use std::alloc::Global;

/// Stores the image of a text's program under this name, or refuses the text.
fn compile_text<F: Shelf>(
    alloc: Global,
    text: &[u8],
    to: &str,
    files: &mut F,
) -> Result<Done, Fault>
    ensures { CompiledText text.now to.now (F.state files.old) (F.state files.new) result }
{
    match compile(alloc, text) {
        Ok(image) => store_image(alloc, &image, to, files),
        Err(CompileFault::Refused(refusal)) => Ok(Done::Refused(refusal)),
        Err(CompileFault::Memory) => Err(Fault::Memory),
    }
}

/// Loads the text of one file and stores the image of its program under another name, for a request
/// that asks that.
pub fn compile_file<F: Shelf>(
    alloc: Global,
    from: &str,
    to: &str,
    files: &mut F,
) -> Result<Done, Fault>
    ensures { (request : Option Request) (input : SourceState) (out err : SinkState) (heap : KeptStore) → CompilesOf request from.now to.now → Performs request (outside (F.state files.old) input out err heap) (outside (F.state files.new) input out err heap) result }
{
    match load_text(alloc, from, files) {
        Ok(text) => compile_text(alloc, text.as_slice(), to, files),
        Err(NoText::TooLong) => Ok(Done::Refused(Refusal::TooLong)),
        Err(NoText::Failed(fault)) => Err(fault),
    }
}
