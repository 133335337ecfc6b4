// Runs the tasks of a file.
ghost use Rattle.std.specs.Prelude.{Option};
ghost use Rattle.rc_base.specs.Sinks.{SinkState};
ghost use Rattle.rc_outcomes.specs.Outside.{outside};
ghost use Rattle.rc_outcomes.specs.Performing.{Performs};
ghost use Rattle.rc_requests.specs.Request.{Request};
ghost use Rattle.rc_store.specs.Stores.{IsNew};
ghost use Rattle.rc_task_text.specs.TaskText.{AreChoices};
ghost use Rattle.rc_driver.specs.Tasking.{RanTasks, RunsTasksOf};

use crate::run::run_text;
use rc_answers::{Done, Fault};
use rc_base::{Limits, Shelf, Sink, Source, Steps};
use rc_compile::Refusal;
use rc_files::{NoText, load_text};
use rc_store::Heap;
use rc_task_text::task_text;
use std::alloc::Global;

/// Runs a text with the lines behind it that run its tasks by these choices.
fn run_task_text<S: Source, O: Sink, H: Heap>(
    alloc: Global,
    text: &[u8],
    choices: &str,
    limits: &Limits,
    input: &mut S,
    out: &mut O,
    heap: &mut H,
    steps: &mut Steps<H::Counter>,
) -> Result<Done, Fault>
    requires new { IsNew (H.store heap.old) }
    requires choices { AreChoices choices.now }
    ensures { RanTasks choices.now text.now limits.now (S.state input.old) (S.state input.new) (O.state out.old) (O.state out.new) (H.store heap.old) (H.store heap.new) result }
{
    let Ok(all) = task_text(alloc, text, choices) else {
        return Err(Fault::Memory);
    };
    run_text(alloc, all.as_slice(), limits, input, out, heap, steps)
}

/// Loads the text of a file and runs its tasks by these choices over the heap, for a request that asks
/// that. Beside the text as it was loaded it is in memory once more, with the lines behind it.
pub fn run_tasks<F: Shelf, S: Source, O: Sink, H: Heap>(
    alloc: Global,
    name: &str,
    choices: &str,
    limits: Limits,
    files: &mut F,
    input: &mut S,
    out: &mut O,
    heap: &mut H,
    steps: &mut Steps<H::Counter>,
) -> Result<Done, Fault>
    requires new { IsNew (H.store heap.old) }
    requires choices { AreChoices choices.now }
    ensures { (request : Option Request) (err : SinkState) → RunsTasksOf request name.now choices.now limits → Performs request (outside (F.state files.old) (S.state input.old) (O.state out.old) err (H.store heap.old)) (outside (F.state files.new) (S.state input.new) (O.state out.new) err (H.store heap.new)) result }
{
    match load_text(alloc, name, files) {
        Ok(text) => run_task_text(
            alloc,
            text.as_slice(),
            choices,
            &limits,
            input,
            out,
            heap,
            steps,
        ),
        Err(NoText::TooLong) => Ok(Done::Refused(Refusal::TooLong)),
        Err(NoText::Failed(fault)) => Err(fault),
    }
}
