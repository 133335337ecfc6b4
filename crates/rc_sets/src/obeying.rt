// Obeying commands.
ghost use Rattle.rc_replies.specs.Commands.{command_of};
ghost use Rattle.rc_replies.specs.Reading.{asked};
ghost use Rattle.rc_sets.specs.Obeying.{MayDoLine, MayObey};
ghost use Rattle.rc_sets.specs.Records.{IsKeptBy};

use crate::deletion::drop_all;
use crate::links::link;
use crate::objects::make_object;
use crate::pins::{pin, unpin};
use crate::records::Records;
use crate::regions::make_region;
use rc_base::{NoMemory, Steps};
use rc_replies::{Command, NoCommand, Reply, command_of};
use rc_store::{Pointer, SetHeap};
use std::alloc::Global;

fn obey<H: SetHeap>(
    alloc: Global,
    command: &Command,
    heap: &mut H,
    records: &mut Records,
    steps: &mut Steps<H::Counter>,
) -> Result<Reply, NoMemory>
    requires { IsKeptBy records.old (H.store heap.old) }
    ensures { MayObey (asked command.now) (H.store heap.old) (H.store heap.new) records.new result }
{
    match command {
        Command::New(parent) => make_region(heap, records, *parent),
        Command::Cells(region, count) => make_object(heap, records, *region, *count),
        Command::Link(region, object, index, target) => {
            let element = Pointer {
                region: *region,
                object: *object,
                index: *index,
            };
            Ok(link(heap, records, element, *target, steps))
        }
        Command::Pin(region) => pin(heap, records, *region),
        Command::Unpin(region) => Ok(unpin(heap, records, *region)),
        Command::Drop(regions) => drop_all(alloc, heap, records, regions, steps),
    }
}

/// Obeys a line.
pub(crate) fn obey_line<H: SetHeap>(
    alloc: Global,
    line: &[u8],
    heap: &mut H,
    records: &mut Records,
    steps: &mut Steps<H::Counter>,
) -> Result<Reply, NoMemory>
    requires { IsKeptBy records.old (H.store heap.old) }
    ensures { MayDoLine (command_of line.now) (H.store heap.old) (H.store heap.new) records.new result }
{
    match command_of(alloc, line) {
        Ok(command) => obey(alloc, &command, heap, records, steps),
        Err(NoCommand::Bad) => Ok(Reply::Bad),
        Err(NoCommand::Memory) => Err(NoMemory),
    }
}
