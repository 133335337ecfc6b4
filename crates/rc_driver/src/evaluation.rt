// Runs a file node by node.
ghost use Rattle.std.specs.Prelude.{◌≡◌, Option};
ghost use Rattle.rc_base.specs.Sinks.{SinkState};
ghost use Rattle.rc_core.specs.Shapes.{program_of};
ghost use Rattle.rc_outcomes.specs.Outcome.{as_they_are, unsaid};
ghost use Rattle.rc_outcomes.specs.Outside.{outside};
ghost use Rattle.rc_outcomes.specs.Performing.{Performs};
ghost use Rattle.rc_requests.specs.Request.{Request};
ghost use Rattle.rc_store.specs.Kept.{KeptStore};
ghost use Rattle.rc_files.specs.Programs.{RanProgram, RanText, RunsTextOf};
ghost use Rattle.rc_driver.specs.Evaluating.{TellsInput, as_done};

use rc_answers::{Done, Fault};
use rc_base::{End, Limits, RunFault, Shelf, Sink, Source};
use rc_compile::{CompileFault, Refusal};
use rc_core::program::Program;
use rc_files::{NoText, load_text};
use rc_outcomes::flush_behind;
use rc_slow::evaluate;
use std::alloc::Global;

/// What was done, or the fault, of a run.
fn as_done(ended: Result<End, RunFault>) -> Result<Done, RunFault>
    ensures { result ≡ as_done ended }
{
    match ended {
        Ok(end) => Ok(Done::Ended(end)),
        Err(fault) => Err(fault),
    }
}

/// Runs a program, and flushes the output, but for one that a byte could not be written to.
fn run_program<S: Source, O: Sink>(
    alloc: Global,
    program: &Program,
    limits: Limits,
    input: &mut S,
    out: &mut O,
) -> Result<Done, Fault>
    ensures { (heap : KeptStore) → RanProgram unsaid (TellsInput (S.state input.old)) (program_of program.now) limits (S.state input.old) (S.state input.new) (O.state out.old) (O.state out.new) heap result }
{
    let ended = evaluate(alloc, program, &limits, input, out);
    flush_behind(out, as_done(ended))
}

/// Runs the program of a text, or refuses the text.
fn run_text<S: Source, O: Sink>(
    alloc: Global,
    text: &[u8],
    limits: Limits,
    input: &mut S,
    out: &mut O,
) -> Result<Done, Fault>
    ensures { (heap : KeptStore) → RanText unsaid (TellsInput (S.state input.old)) text.now limits (S.state input.old) (S.state input.new) (O.state out.old) (O.state out.new) heap heap result }
{
    match rc_compile::program(alloc, text) {
        Ok(program) => run_program(alloc, &program, limits, input, out),
        Err(CompileFault::Refused(refusal)) => Ok(Done::Refused(refusal)),
        Err(CompileFault::Memory) => Err(Fault::Memory),
    }
}

/// Loads the text of a file and runs it node by node, for a request that asks that. The heap is not
/// used.
pub fn evaluate_file<F: Shelf, S: Source, O: Sink>(
    alloc: Global,
    name: &str,
    limits: Limits,
    files: &mut F,
    input: &mut S,
    out: &mut O,
) -> Result<Done, Fault>
    ensures { (request : Option Request) (err : SinkState) (heap : KeptStore) → RunsTextOf request name.now as_they_are limits unsaid TellsInput → Performs request (outside (F.state files.old) (S.state input.old) (O.state out.old) err heap) (outside (F.state files.new) (S.state input.new) (O.state out.new) err heap) result }
{
    match load_text(alloc, name, files) {
        Ok(text) => run_text(alloc, text.as_slice(), limits, input, out),
        Err(NoText::TooLong) => Ok(Done::Refused(Refusal::TooLong)),
        Err(NoText::Failed(fault)) => Err(fault),
    }
}
