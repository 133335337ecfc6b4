// Running scripts.
ghost use Rattle.std.specs.Prelude.{OnErr, OnOk};
ghost use Rattle.rc_replies.specs.Commands.{lines_of};
ghost use Rattle.rc_replies.specs.Replies.{first_store, heap_store, heap_text};
ghost use Rattle.rc_replies.specs.Stores.{IsSame};
ghost use Rattle.rc_store.specs.Stores.{IsNew};
ghost use Rattle.rc_sets.specs.Scripts.{IsBehindSome, PutText, limits_of};

use crate::obeying::obey_line;
use crate::records::Records;
use rc_base::{Sink, Steps};
use rc_replies::{next_line, write_reply};
use rc_store::SetHeap;
use std::alloc::Global;

/// What cut a script short.
#[derive(Clone, Copy, Debug, PartialEq, Eq)]
pub enum ScriptFault {
    /// The output failed.
    WriteFault,
    /// There was no memory.
    Memory,
}

/// Runs a script of heap commands over a new heap, and writes a line for each of its lines. It doesn't
/// flush.
///
/// # Errors
///
/// `WriteFault` where a byte of an answer could not be put: those before it were. `Memory`: a front of
/// the output was written. The heap is then what some of the lines made it, from the first on.
pub fn script<H: SetHeap, O: Sink>(
    alloc: Global,
    text: &[u8],
    heap: &mut H,
    out: &mut O,
    steps: &mut Steps<H::Counter>,
) -> Result<(), ScriptFault>
    requires { IsNew (H.store heap.old) }
    ensures text { PutText (heap_text text.now (limits_of (H.store heap.old))) (O.state out.old) (O.state out.new) result }
    ensures heap { OnOk result (IsSame (heap_store text.now (limits_of (H.store heap.old))) (H.store heap.new)) }
    ensures left { OnErr result (IsBehindSome (lines_of text.now) (first_store (limits_of (H.store heap.old))) (H.store heap.new)) }
{
    let Ok(mut records) = Records::new(alloc) else {
        return Err(ScriptFault::Memory);
    };
    let mut rest = text;
    while !rest.is_empty() {
        let line = next_line(rest);
        let Ok(reply) = obey_line(alloc, line.bytes, heap, &mut records, steps) else {
            return Err(ScriptFault::Memory);
        };
        let Ok(()) = write_reply(out, reply) else {
            return Err(ScriptFault::WriteFault);
        };
        rest = line.rest;
    }
    Ok(())
}
