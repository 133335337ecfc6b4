// New regions.
ghost use Rattle.rc_replies.specs.Commands.{New};
ghost use Rattle.rc_sets.specs.Obeying.{MayObey};
ghost use Rattle.rc_sets.specs.Records.{IsKeptBy};

use crate::records::Records;
use rc_base::NoMemory;
use rc_replies::Reply;
use rc_store::{Heap, MakeFault};

/// Makes a region under another.
pub(crate) fn make_region<H: Heap>(
    heap: &mut H,
    records: &mut Records,
    parent: u32,
) -> Result<Reply, NoMemory>
    requires { IsKeptBy records.old (H.store heap.old) }
    ensures { MayObey (New parent) (H.store heap.old) (H.store heap.new) records.new result }
{
    if !heap.is_live(parent) {
        return Ok(Reply::Bad);
    }
    match heap.new_region(parent) {
        Ok(region) => {
            records.add_region()?;
            Ok(Reply::Region(region))
        }
        Err(MakeFault::Full) => Ok(Reply::Full),
        Err(MakeFault::Memory) => Err(NoMemory),
    }
}
