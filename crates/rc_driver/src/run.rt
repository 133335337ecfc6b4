// Runs the image of a file's program.
ghost use Rattle.std.specs.Prelude.{Option};
ghost use Rattle.rc_base.specs.Sinks.{SinkState};
ghost use Rattle.rc_driver.specs.Executing.{TellsBytes};
ghost use Rattle.rc_outcomes.specs.Outcome.{as_left};
ghost use Rattle.rc_outcomes.specs.Outside.{outside};
ghost use Rattle.rc_outcomes.specs.Performing.{Performs};
ghost use Rattle.rc_requests.specs.Request.{Request};
ghost use Rattle.rc_store.specs.Stores.{IsNew};
ghost use Rattle.rc_files.specs.Programs.{RanText};
ghost use Rattle.rc_driver.specs.Ends.{Ends};
ghost use Rattle.rc_driver.specs.Running.{RunsInHeap};

use crate::execute::run_loaded;
use rc_answers::{Done, Fault};
use rc_base::{Limits, Shelf, Sink, Source, Steps};
use rc_build::ready;
use rc_compile::{CompileFault, Refusal};
use rc_files::{NoText, load_text};
use rc_store::Heap;
use std::alloc::Global;

/// The answer of a program's image: it has an end. An image that is made of a program touches no
/// deleted region; over an input that doesn't tell its bytes nothing is known of a run, and want of
/// memory is the one answer that promises nothing.
fn as_end(ran: Result<Done, Fault>) -> Result<Done, Fault>
    ensures { Ends ran result }
{
    match ran {
        Ok(Done::Ended(end)) => Ok(Done::Ended(end)),
        Ok(_done) => Err(Fault::Memory),
        Err(fault) => Err(fault),
    }
}

/// Runs the image of a text's program over the heap, which is given the limits, or refuses the text.
pub(crate) fn run_text<S: Source, O: Sink, H: Heap>(
    alloc: Global,
    text: &[u8],
    limits: &Limits,
    input: &mut S,
    out: &mut O,
    heap: &mut H,
    steps: &mut Steps<H::Counter>,
) -> Result<Done, Fault>
    requires { IsNew (H.store heap.old) }
    ensures { RanText as_left (TellsBytes (S.state input.old)) text.now limits.now (S.state input.old) (S.state input.new) (O.state out.old) (O.state out.new) (H.store heap.old) (H.store heap.new) result }
{
    match ready(alloc, text) {
        Ok(code) => as_end(run_loaded(alloc, &code, limits, heap, input, out, steps)),
        Err(CompileFault::Refused(refusal)) => Ok(Done::Refused(refusal)),
        Err(CompileFault::Memory) => Err(Fault::Memory),
    }
}

/// Loads the text of a file, makes the image of its program and runs that over the heap, for a request
/// that asks that.
pub fn run_file<F: Shelf, S: Source, O: Sink, H: Heap>(
    alloc: Global,
    name: &str,
    limits: Limits,
    files: &mut F,
    input: &mut S,
    out: &mut O,
    heap: &mut H,
    steps: &mut Steps<H::Counter>,
) -> Result<Done, Fault>
    requires { IsNew (H.store heap.old) }
    ensures { (request : Option Request) (err : SinkState) → RunsInHeap request name.now limits → Performs request (outside (F.state files.old) (S.state input.old) (O.state out.old) err (H.store heap.old)) (outside (F.state files.new) (S.state input.new) (O.state out.new) err (H.store heap.new)) result }
{
    match load_text(alloc, name, files) {
        Ok(text) => run_text(alloc, text.as_slice(), &limits, input, out, heap, steps),
        Err(NoText::TooLong) => Ok(Done::Refused(Refusal::TooLong)),
        Err(NoText::Failed(fault)) => Err(fault),
    }
}
