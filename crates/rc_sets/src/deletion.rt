// Deleting several regions at once.
ghost use Rattle.std.specs.Prelude.{◌≡◌, ◌==◌, nat_eq, length, IfOk};
ghost use Rattle.std.specs.List.{list_all};
ghost use Rattle.std.specs.Set.{distinct_count};
ghost use Rattle.std.specs.BTreeSet.{IsFromIterResult};
ghost use Rattle.std.specs.Ordering.{nat_cmp};
ghost use Rattle.rc_replies.specs.Commands.{Drop};
ghost use Rattle.rc_replies.specs.Replies.{deletion_reply, is_set};
ghost use Rattle.rc_store.specs.Sets.{IsSet};
ghost use Rattle.rc_store.specs.Stores.{live_in};
ghost use Rattle.rc_sets.specs.Deletions.{Deletes};
ghost use Rattle.rc_sets.specs.Obeying.{MayObey};
ghost use Rattle.rc_sets.specs.Records.{IsKeptBy};

use crate::records::Records;
use rc_base::{NoMemory, Steps};
use rc_replies::Reply;
use rc_store::{Denied, Heap, SetHeap};
use std::alloc::{AllocError, Global};
use std::collections::BTreeSet;

fn are_live<H: Heap>(heap: &H, regions: &[u32]) -> bool
    ensures { result ≡ list_all (live_in (H.store heap.now).regions) regions.now }
{
    for region in regions {
        if !heap.is_live(*region) {
            return false;
        }
    }
    true
}

fn set_of(alloc: Global, regions: &[u32]) -> Result<BTreeSet<u32>, AllocError>
    ensures { IfOk result (IsFromIterResult nat_cmp regions.now) }
{
    regions.iter().copied().collect(alloc)
}

/// Whether none of them stands twice.
fn are_distinct(alloc: Global, regions: &[u32]) -> Result<bool, NoMemory>
    ensures { IfOk result (λ b. b ≡ (distinct_count nat_eq regions.now == length regions.now)) }
{
    let set = set_of(alloc, regions)?;
    Ok(set.len() == regions.len())
}

fn delete<H: SetHeap>(heap: &mut H, regions: &[u32], steps: &mut Steps<H::Counter>) -> Reply
    requires { IsSet (H.store heap.old) regions.now }
    ensures { Deletes regions.now (H.store heap.old) (H.store heap.new) result }
{
    match heap.delete_set(regions, steps) {
        Ok(()) => Reply::Done,
        Err(Denied::Root) => Reply::Root,
        Err(Denied::Subregion) => Reply::Subregion,
        Err(Denied::Reference) => Reply::Reference,
    }
}

/// Deletes all these regions, or none.
pub(crate) fn drop_all<H: SetHeap>(
    alloc: Global,
    heap: &mut H,
    records: &Records,
    regions: &[u32],
    steps: &mut Steps<H::Counter>,
) -> Result<Reply, NoMemory>
    requires { IsKeptBy records.now (H.store heap.old) }
    ensures { MayObey (Drop regions.now) (H.store heap.old) (H.store heap.new) records.now result }
{
    if !are_live(heap, regions) {
        return Ok(Reply::Bad);
    }
    if !are_distinct(alloc, regions)? {
        return Ok(Reply::Bad);
    }
    Ok(delete(heap, regions, steps))
}
