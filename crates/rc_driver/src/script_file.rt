// Runs the script of a file.
ghost use Rattle.std.specs.Prelude.{◌≡◌, Option};
ghost use Rattle.rc_base.specs.Sinks.{SinkState};
ghost use Rattle.rc_base.specs.Sources.{SourceState};
ghost use Rattle.rc_outcomes.specs.Outside.{outside};
ghost use Rattle.rc_outcomes.specs.Performing.{Performs};
ghost use Rattle.rc_requests.specs.Request.{Request};
ghost use Rattle.rc_driver.specs.Scripting.{AnsweredScript, AnsweredText, RanScript, ScriptOf, as_done};
ghost use Rattle.rc_sets.specs.Scripts.{limits_of};
ghost use Rattle.rc_store.specs.Stores.{IsNew};

use rc_answers::{Done, Fault};
use rc_base::{Limits, MOST_TEXT_BYTES, RunFault, Shelf, Sink, Steps};
use rc_compile::Refusal;
use rc_files::{NoText, load_text};
use rc_outcomes::flush_behind;
use rc_sets::{ScriptFault, script};
use rc_store::SetHeap;
use std::alloc::Global;

/// What was done, or the fault, of a script.
fn as_done(ended: Result<(), ScriptFault>) -> Result<Done, RunFault>
    ensures { result ≡ as_done ended }
{
    match ended {
        Ok(()) => Ok(Done::Reported),
        Err(ScriptFault::WriteFault) => Err(RunFault::WriteFault),
        Err(ScriptFault::Memory) => Err(RunFault::Memory),
    }
}

/// Runs a script over the heap, which is given the limits, and flushes the output, but for one that a
/// byte could not be written to.
fn run_text<H: SetHeap, O: Sink>(
    alloc: Global,
    text: &[u8],
    limits: &Limits,
    heap: &mut H,
    out: &mut O,
    steps: &mut Steps<H::Counter>,
) -> Result<Done, Fault>
    requires { IsNew (H.store heap.old) }
    ensures { AnsweredScript text.now limits.now (O.state out.old) (O.state out.new) (H.store heap.new) result }
{
    heap.limit(limits);
    let ended = script(alloc, text, heap, out, steps);
    flush_behind(out, as_done(ended))
}

/// Runs a script, or refuses one that is longer than a text may be.
fn run_or_refuse<H: SetHeap, O: Sink>(
    alloc: Global,
    text: &[u8],
    limits: &Limits,
    heap: &mut H,
    out: &mut O,
    steps: &mut Steps<H::Counter>,
) -> Result<Done, Fault>
    requires { IsNew (H.store heap.old) }
    ensures { AnsweredText text.now limits.now (O.state out.old) (O.state out.new) (H.store heap.old) (H.store heap.new) result }
{
    if text.len() > MOST_TEXT_BYTES as usize {
        return Ok(Done::Refused(Refusal::TooLong));
    }
    run_text(alloc, text, limits, heap, out, steps)
}

/// Loads the script of a file and runs it over an unused heap, for a request that asks that.
pub fn run_script<F: Shelf, O: Sink, H: SetHeap>(
    alloc: Global,
    name: &str,
    limits: Limits,
    files: &mut F,
    out: &mut O,
    heap: &mut H,
    steps: &mut Steps<H::Counter>,
) -> Result<Done, Fault>
    requires { IsNew (H.store heap.old) }
    ensures { (request : Option Request) (input : SourceState) (err : SinkState) → ScriptOf request name.now limits → Performs request (outside (F.state files.old) input (O.state out.old) err (H.store heap.old)) (outside (F.state files.new) input (O.state out.new) err (H.store heap.new)) result }
{
    match load_text(alloc, name, files) {
        Ok(text) => run_or_refuse(alloc, text.as_slice(), &limits, heap, out, steps),
        Err(NoText::TooLong) => Ok(Done::Refused(Refusal::TooLong)),
        Err(NoText::Failed(fault)) => Err(fault),
    }
}
