// Runs the image of a file.
ghost use Rattle.std.specs.Prelude.{◌≡◌, Option};
ghost use Rattle.rc_base.specs.Sinks.{SinkState};
ghost use Rattle.rc_driver.specs.Executing.{Executed, ExecutesOf, TellsBytes, as_done};
ghost use Rattle.rc_files.specs.Loading.{Fit, as_read};
ghost use Rattle.rc_first_heap.specs.First.{IsUnused};
ghost use Rattle.rc_machine.specs.Image.{RunsImage};
ghost use Rattle.rc_outcomes.specs.Outcome.{comes_of};
ghost use Rattle.rc_outcomes.specs.Outside.{outside};
ghost use Rattle.rc_outcomes.specs.Performing.{Performs};
ghost use Rattle.rc_outcomes.specs.Runs.{Ran};
ghost use Rattle.rc_requests.specs.Request.{Request};
ghost use Rattle.rc_store.specs.Stores.{IsNew};

use crate::admit::{NotRun, admit};
use rc_answers::{Done, Fault};
use rc_base::{Limits, RunFault, Shelf, Sink, Source, Steps};
use rc_code::Loaded;
use rc_files::{Carried, NoImage, load_image};
use rc_machine::{ImageEnd, run};
use rc_outcomes::flush_behind;
use rc_store::Heap;
use std::alloc::Global;

/// What was done, or the fault, of a run.
fn as_done(ended: Result<ImageEnd, RunFault>) -> Result<Done, RunFault>
    ensures { result ≡ as_done ended }
{
    match ended {
        Ok(ImageEnd::Ended(end)) => Ok(Done::Ended(end)),
        Ok(ImageEnd::Stale(line)) => Ok(Done::StaleImage(line)),
        Err(fault) => Err(fault),
    }
}

/// Runs a loaded image over the heap, which is given the limits, and flushes the output, but for one
/// that a byte could not be written to.
pub fn run_loaded<H: Heap, S: Source, O: Sink>(
    alloc: Global,
    code: &Loaded,
    limits: &Limits,
    heap: &mut H,
    input: &mut S,
    out: &mut O,
    steps: &mut Steps<H::Counter>,
) -> Result<Done, Fault>
    requires { IsNew (H.store heap.old) }
    ensures { Ran (TellsBytes (S.state input.old)) (comes_of code.now limits.now) (S.state input.old) (S.state input.new) (O.state out.old) (O.state out.new) (H.store heap.new) result }
{
    heap.limit(limits);
    let ended = run(alloc, code, limits, heap, input, out, steps);
    flush_behind(out, as_done(ended))
}

/// Runs what a file carries, or refuses it.
fn execute<H: Heap, S: Source, O: Sink>(
    alloc: Global,
    carried: Carried,
    limits: &Limits,
    heap: &mut H,
    input: &mut S,
    out: &mut O,
    steps: &mut Steps<H::Counter>,
) -> Result<Done, Fault>
    requires new { IsNew (H.store heap.old) }
    requires fit { Fit carried }
    ensures { Executed (as_read carried) limits.now (S.state input.old) (S.state input.new) (O.state out.old) (O.state out.new) (H.store heap.old) (H.store heap.new) result }
{
    match admit(alloc, carried) {
        Ok(code) => run_loaded(alloc, &code, limits, heap, input, out, steps),
        Err(NotRun::Refused(refusal)) => Ok(Done::ImageRefused(refusal)),
        Err(NotRun::Memory) => Err(Fault::Memory),
    }
}

/// Runs the image of a file over an unused heap, for a request that asks that. The marks that the file
/// has are trusted only where proofs stand beside them, and prove them.
pub fn exec_image<F: Shelf, S: Source, O: Sink, H: Heap>(
    alloc: Global,
    name: &str,
    limits: Limits,
    files: &mut F,
    input: &mut S,
    out: &mut O,
    heap: &mut H,
    steps: &mut Steps<H::Counter>,
) -> Result<Done, Fault>
    requires { IsNew (H.store heap.old) }
    ensures { (request : Option Request) (err : SinkState) → ExecutesOf request name.now limits → Performs request (outside (F.state files.old) (S.state input.old) (O.state out.old) err (H.store heap.old)) (outside (F.state files.new) (S.state input.new) (O.state out.new) err (H.store heap.new)) result }
{
    match load_image(alloc, name, files) {
        Ok(carried) => execute(alloc, carried, &limits, heap, input, out, steps),
        Err(NoImage::Refused(refusal)) => Ok(Done::ImageRefused(refusal)),
        Err(NoImage::Failed(fault)) => Err(fault),
    }
}
