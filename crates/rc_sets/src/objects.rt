// New objects.
ghost use Rattle.rc_replies.specs.Commands.{Cells};
ghost use Rattle.rc_sets.specs.Obeying.{MayObey};
ghost use Rattle.rc_sets.specs.Records.{IsKeptBy};

use crate::records::Records;
use rc_base::NoMemory;
use rc_replies::Reply;
use rc_store::{Heap, MakeFault};

/// The most elements of an object.
const MOST_ELEMENTS: u32 = 2_147_483_647;

/// Makes an object of so many cells in a region.
pub(crate) fn make_object<H: Heap>(
    heap: &mut H,
    records: &mut Records,
    region: u32,
    count: u32,
) -> Result<Reply, NoMemory>
    requires { IsKeptBy records.old (H.store heap.old) }
    ensures { MayObey (Cells region count) (H.store heap.old) (H.store heap.new) records.new result }
{
    if !heap.is_live(region) {
        return Ok(Reply::Bad);
    }
    if count > MOST_ELEMENTS {
        return Ok(Reply::Bad);
    }
    match heap.allocate(region, records.row(), count) {
        Ok(object) => {
            records.set_objects(region, u64::from(object) + 1);
            Ok(Reply::Object(object))
        }
        Err(MakeFault::Full) => Ok(Reply::Full),
        Err(MakeFault::Memory) => Err(NoMemory),
    }
}
