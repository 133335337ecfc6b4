// The command `soak`.
ghost use Rattle.std.specs.Prelude.{◌≡◌, length, Option};
ghost use Rattle.rc_base.specs.Shelves.{ShelfState};
ghost use Rattle.rc_base.specs.Sinks.{SinkState};
ghost use Rattle.rc_base.specs.Sources.{SourceState};
ghost use Rattle.rc_base.specs.declared.ends.End.{End as AnEnd};
ghost use Rattle.rc_core.specs.Programs.{Program as AProgram};
ghost use Rattle.rc_outcomes.specs.Outside.{outside};
ghost use Rattle.rc_outcomes.specs.Performing.{Performs};
ghost use Rattle.rc_reports.specs.Reports.{removed_count};
ghost use Rattle.rc_requests.specs.Request.{Request};
ghost use Rattle.rc_driver.specs.Soaking.{EndsSo, IsMadeOf, Soaked, SoakedText, SoaksOf};
ghost use Rattle.rc_store.specs.Stores.{IsNew};

use crate::made::{Made, make};
use crate::running::run_alone;
use rc_answers::{Done, Fault};
use rc_base::{End, Limits, MOST_BLOCKS, MOST_REGIONS, Sink, Steps, USUAL_TURNS};
use rc_compile::{CompileFault, program};
use rc_gen::generate;
use rc_outcomes::report;
use rc_reports::removed_count;
use rc_store::Heap;
use rc_summaries::{Summary, summary_text};
use std::alloc::Global;

/// The limits of a run for which no number is asked.
const USUAL_LIMITS: Limits = Limits {
    turns: USUAL_TURNS,
    regions: MOST_REGIONS,
    blocks: MOST_BLOCKS,
};

/// What is said of a program that was made from this number, and whose run ended so.
fn summary_of(number: u64, made: &Made, end: End) -> Summary
    ensures { result ≡ record { number = number; functions = made.now.functions; checks = length made.now.entries.items; removed = removed_count made.now.entries.items; end = end } }
{
    Summary {
        number,
        functions: made.functions,
        checks: made.entries.len() as u64,
        removed: removed_count(made.entries.as_slice()),
        end,
    }
}

/// Runs a program that is made ready over the heap within the limits, and writes its summary.
fn soak_program<O: Sink, H: Heap>(
    alloc: Global,
    number: u64,
    made: &Made,
    limits: &Limits,
    out: &mut O,
    heap: &mut H,
    steps: &mut Steps<H::Counter>,
) -> Result<Done, Fault>
    requires { IsNew (H.store heap.old) }
    ensures { (program : AProgram) (end : AnEnd) → IsMadeOf program made.now → EndsSo program limits.now end → Soaked number program limits.now made.now.entries.items end (O.state out.old) (O.state out.new) (H.store heap.new) result }
{
    let Ok(end) = run_alone(alloc, &made.code, limits, heap, steps) else {
        return Err(Fault::Memory);
    };
    report(out, summary_text(alloc, &summary_of(number, made, end)))
}

/// Soaks the program of a text within the limits, or refuses the text.
fn soak_text<O: Sink, H: Heap>(
    alloc: Global,
    number: u64,
    text: &[u8],
    limits: &Limits,
    out: &mut O,
    heap: &mut H,
    steps: &mut Steps<H::Counter>,
) -> Result<Done, Fault>
    requires { IsNew (H.store heap.old) }
    ensures { SoakedText number text.now limits.now (O.state out.old) (O.state out.new) (H.store heap.old) (H.store heap.new) result }
{
    let program = match program(alloc, text) {
        Ok(program) => program,
        Err(CompileFault::Refused(refusal)) => return Ok(Done::Refused(refusal)),
        Err(CompileFault::Memory) => return Err(Fault::Memory),
    };
    let Ok(made) = make(alloc, &program) else {
        return Err(Fault::Memory);
    };
    soak_program(alloc, number, &made, limits, out, heap, steps)
}

/// Makes the program of this number, compiles it, runs it over the heap within the usual limits, without
/// input and with its output thrown away, and writes its summary to `out`, for a request that asks that.
pub fn soak_number<O: Sink, H: Heap>(
    alloc: Global,
    number: u64,
    out: &mut O,
    heap: &mut H,
    steps: &mut Steps<H::Counter>,
) -> Result<Done, Fault>
    requires { IsNew (H.store heap.old) }
    ensures { (request : Option Request) (files : ShelfState) (input : SourceState) (err : SinkState) → SoaksOf request number → Performs request (outside files input (O.state out.old) err (H.store heap.old)) (outside files input (O.state out.new) err (H.store heap.new)) result }
{
    let Ok(text) = generate(alloc, number) else {
        return Err(Fault::Memory);
    };
    soak_text(
        alloc,
        number,
        text.as_slice(),
        &USUAL_LIMITS,
        out,
        heap,
        steps,
    )
}
