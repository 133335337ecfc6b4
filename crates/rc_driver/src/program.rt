// The top call.
ghost use Rattle.rc_base.specs.Sinks.{SinkState};
ghost use Rattle.rc_driver.specs.Headline.{Serves, asked};
ghost use Rattle.rc_outcomes.specs.Outside.{outside};
ghost use Rattle.rc_outcomes.specs.Performing.{Performs};
ghost use Rattle.rc_store.specs.Stores.{IsNew};

use crate::check::check_file;
use crate::compile::compile_file;
use crate::evaluation::evaluate_file;
use crate::execute::exec_image;
use crate::link::link_files;
use crate::run::run_file;
use crate::script_file::run_script;
use crate::seal::seal_image;
use crate::soak::soak_number;
use crate::tasks::run_tasks;
use rc_answers::{Done, Fault, tell};
use rc_base::{Shelf, Sink, Source, Steps};
use rc_files::{list_image, upgrade_image};
use rc_requests::{Request, request_of};
use rc_store::SetHeap;
use std::alloc::Global;

/// Does what the words ask, but for telling it.
fn perform<F: Shelf, S: Source, O: Sink, H: SetHeap>(
    alloc: Global,
    words: &[String],
    files: &mut F,
    input: &mut S,
    out: &mut O,
    heap: &mut H,
    steps: &mut Steps<H::Counter>,
) -> Result<Done, Fault>
    requires { IsNew (H.store heap.old) }
    ensures { (err : SinkState) → Performs (asked words.now) (outside (F.state files.old) (S.state input.old) (O.state out.old) err (H.store heap.old)) (outside (F.state files.new) (S.state input.new) (O.state out.new) err (H.store heap.new)) result }
{
    match request_of(words) {
        Some(Request::Run(file, limits)) => {
            run_file(alloc, file, limits, files, input, out, heap, steps)
        }
        Some(Request::Slow(file, limits)) => {
            evaluate_file(alloc, file, limits, files, input, out)
        }
        Some(Request::Compile(from, to)) => compile_file(alloc, from, to, files),
        Some(Request::Exec(file, limits)) => {
            exec_image(alloc, file, limits, files, input, out, heap, steps)
        }
        Some(Request::Listing(file)) => list_image(alloc, file, files, out),
        Some(Request::Upgrade(from, to)) => upgrade_image(alloc, from, to, files),
        Some(Request::Script(file, limits)) => {
            run_script(alloc, file, limits, files, out, heap, steps)
        }
        Some(Request::Checks(file)) => check_file(alloc, file, files, out),
        Some(Request::Soak(number)) => soak_number(alloc, number, out, heap, steps),
        Some(Request::Tasks(file, choices, limits)) => run_tasks(
            alloc, file, choices, limits, files, input, out, heap, steps,
        ),
        Some(Request::Link(to, names)) => link_files(alloc, names, to, files),
        Some(Request::Seal(from, to)) => seal_image(alloc, from, to, files),
        None => Ok(Done::Usage),
    }
}

/// Does what the words ask: `words` are those behind the program's own name.
///
/// A listing writes exactly that of the image to `out`. A compilation stores exactly the image of the
/// text's program, which means what the program means, and so does a linking for the one program that
/// several files are; an upgrade stores exactly the image's bytes, and a sealing those of the image with
/// the greatest proofs of it, and with a mark at exactly the stores whose checks they prove. A run writes
/// exactly the bytes of the meaning of its program or its image to `out`, takes exactly those of `input`
/// that the meaning asks for, and answers exactly its end. A program is run through its image, but for
/// the request to go node by node; an image of a file is run with all marks of its stores taken away,
/// unless it carries proofs: then it is run as it is where they prove each instruction, and refused
/// where they don't. Both run over `heap`, which is as its constructor made it, under the request's
/// limits, and so does a program of tasks, which does exactly what its tasks mean under the choices. A
/// script of heap commands is obeyed over it line by line, writes exactly its answers to `out`, and
/// leaves the store that is behind its last line. A report on the checks of a program says exactly which
/// may go. A program that is made from a number is run over the heap too, under the usual limits and
/// without input, and the line that sums it up is written to `out`. Only a fault of the outside, which
/// its count shows, or want of memory may cut a run or a report short, and then a front of its acts was
/// done. What is answered is told on `err`. The cells of `heap` are read by `steps` alone, the one
/// counter of its ledger. All that is promised stands fact by fact in `Serves` of specs/Headline, over
/// the outside before the call and after it.
///
/// # Errors
///
/// `FileFault`, `ReadFault`, `WriteFault` and `ErrFault` come only where the count of `files`, `input`,
/// `out` or `err` rose in the call; `FileFault` comes also where a name that the words ask to read isn't
/// there. `Memory` may come at any time.
pub fn rc_main<F: Shelf, S: Source, O: Sink, E: Sink, H: SetHeap>(
    alloc: Global,
    words: &[String],
    files: &mut F,
    input: &mut S,
    out: &mut O,
    err: &mut E,
    heap: &mut H,
    steps: &mut Steps<H::Counter>,
) -> Result<Done, Fault>
    requires { IsNew (H.store heap.old) }
    ensures { Serves (asked words.now) (outside (F.state files.old) (S.state input.old) (O.state out.old) (E.state err.old) (H.store heap.old)) (outside (F.state files.new) (S.state input.new) (O.state out.new) (E.state err.new) (H.store heap.new)) result }
{
    let answer = perform(alloc, words, files, input, out, heap, steps);
    tell(err, answer)
}
