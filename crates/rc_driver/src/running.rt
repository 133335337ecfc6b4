// A run beside which there is nothing but the heap.
ghost use Rattle.std.specs.Prelude.{◌≡◌, Ok, IfOk};
ghost use Rattle.rc_answers.specs.declared.answer.Done.TheVariants.{Ended};
ghost use Rattle.rc_driver.specs.Soaking.{RanAlone};
ghost use Rattle.rc_store.specs.Stores.{IsNew};

use crate::execute::run_loaded;
use rc_answers::{Done, Fault};
use rc_base::{Bytes, Discard, End, Limits, NoMemory, Steps};
use rc_code::Loaded;
use rc_store::Heap;
use std::alloc::Global;

/// The end of a run. The image of a program touches no deleted region, and neither an input in memory nor
/// an output that is thrown away fails: want of memory stands for these.
fn end_of(ran: Result<Done, Fault>) -> Result<End, NoMemory>
    ensures { IfOk result (λ end. ran ≡ Ok (Ended end)) }
{
    match ran {
        Ok(Done::Ended(end)) => Ok(end),
        Ok(_done) => Err(NoMemory),
        Err(_fault) => Err(NoMemory),
    }
}

/// Runs an image over the heap within the limits, without input. Its output is thrown away.
///
/// # Errors
///
/// Out of memory.
pub(crate) fn run_alone<H: Heap>(
    alloc: Global,
    code: &Loaded,
    limits: &Limits,
    heap: &mut H,
    steps: &mut Steps<H::Counter>,
) -> Result<End, NoMemory>
    requires { IsNew (H.store heap.old) }
    ensures { IfOk result (λ end. RanAlone code.now limits.now end (H.store heap.new)) }
{
    let mut input = Bytes::new(Vec::new(alloc), Vec::new(alloc));
    let mut out = Discard::new();
    end_of(run_loaded(alloc, code, limits, heap, &mut input, &mut out, steps))
}
