// Pins.
ghost use Rattle.std.specs.Prelude.{Some};
ghost use Rattle.rc_replies.specs.Commands.{Pin, Unpin};
ghost use Rattle.rc_sets.specs.Obeying.{DidLine, MayObey};
ghost use Rattle.rc_sets.specs.Records.{IsKeptBy};

use crate::records::Records;
use rc_base::NoMemory;
use rc_replies::Reply;
use rc_store::{Cell, Heap};

/// Pins a region.
pub(crate) fn pin<H: Heap>(
    heap: &mut H,
    records: &mut Records,
    region: u32,
) -> Result<Reply, NoMemory>
    requires { IsKeptBy records.old (H.store heap.old) }
    ensures { MayObey (Pin region) (H.store heap.old) (H.store heap.new) records.new result }
{
    if !heap.is_live(region) {
        return Ok(Reply::Bad);
    }
    let count = records.pins(region);
    if count == u64::MAX {
        // no memory holds more pins
        return Err(NoMemory);
    }
    heap.reserve_pins(1)?;
    heap.pin(Cell::Region(region));
    records.set_pins(region, count + 1);
    Ok(Reply::Done)
}

/// Takes one pin of a region away.
pub(crate) fn unpin<H: Heap>(heap: &mut H, records: &mut Records, region: u32) -> Reply
    requires { IsKeptBy records.old (H.store heap.old) }
    ensures { DidLine (Some (Unpin region)) (H.store heap.old) (H.store heap.new) records.new result }
{
    if !heap.is_live(region) {
        return Reply::Bad;
    }
    let count = records.pins(region);
    if count == 0 {
        return Reply::Bad;
    }
    heap.unpin(Cell::Region(region));
    records.set_pins(region, count - 1);
    Reply::Done
}
