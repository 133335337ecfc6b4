// Reports on the checks of a file's program.
ghost use Rattle.std.specs.Prelude.{Option};
ghost use Rattle.rc_base.specs.Sinks.{SinkState};
ghost use Rattle.rc_base.specs.Sources.{SourceState};
ghost use Rattle.rc_driver.specs.Checking.{CheckedText, ChecksOf};
ghost use Rattle.rc_outcomes.specs.Outside.{outside};
ghost use Rattle.rc_outcomes.specs.Performing.{Performs};
ghost use Rattle.rc_requests.specs.Request.{Request};
ghost use Rattle.rc_store.specs.Kept.{KeptStore};

use rc_answers::{Done, Fault};
use rc_base::{Shelf, Sink};
use rc_compile::{CompileFault, Refusal};
use rc_files::{NoText, load_text};
use rc_outcomes::report;
use rc_reports::{inspect, report_text};
use std::alloc::Global;

/// Writes the report of a text's program, or refuses the text.
fn check_text<O: Sink>(alloc: Global, text: &[u8], out: &mut O) -> Result<Done, Fault>
    ensures { CheckedText text.now (O.state out.old) (O.state out.new) result }
{
    match inspect(alloc, text) {
        Ok(entries) => report(out, report_text(alloc, entries.as_slice())),
        Err(CompileFault::Refused(refusal)) => Ok(Done::Refused(refusal)),
        Err(CompileFault::Memory) => Err(Fault::Memory),
    }
}

/// Loads the text of a file and writes the report of its program, for a request that asks that.
pub fn check_file<F: Shelf, O: Sink>(
    alloc: Global,
    name: &str,
    files: &mut F,
    out: &mut O,
) -> Result<Done, Fault>
    ensures { (request : Option Request) (input : SourceState) (err : SinkState) (heap : KeptStore) → ChecksOf request name.now → Performs request (outside (F.state files.old) input (O.state out.old) err heap) (outside (F.state files.new) input (O.state out.new) err heap) result }
{
    match load_text(alloc, name, files) {
        Ok(text) => check_text(alloc, text.as_slice(), out),
        Err(NoText::TooLong) => Ok(Done::Refused(Refusal::TooLong)),
        Err(NoText::Failed(fault)) => Err(fault),
    }
}
