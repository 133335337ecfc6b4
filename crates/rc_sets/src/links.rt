// Writing cells.
ghost use Rattle.std.specs.Prelude.{◌≡◌, Some};
ghost use Rattle.rc_replies.specs.Commands.{Link};
ghost use Rattle.rc_replies.specs.Replies.{has_cell, is_target, target_value};
ghost use Rattle.rc_store.specs.Values.{value_of};
ghost use Rattle.rc_sets.specs.Obeying.{DidLine};
ghost use Rattle.rc_sets.specs.Records.{IsKeptBy};

use crate::records::Records;
use rc_base::Steps;
use rc_replies::Reply;
use rc_store::{Cell, Heap, Place, Pointer};

fn has_cell<H: Heap>(heap: &H, records: &Records, element: Pointer) -> bool
    requires { IsKeptBy records.now (H.store heap.now) }
    ensures { result ≡ has_cell (H.store heap.now).regions element.region element.object element.index }
{
    if !heap.is_live(element.region) {
        return false;
    }
    if u64::from(element.object) >= records.objects(element.region) {
        return false;
    }
    element.index < heap.elements(element.region, element.object)
}

/// Whether a cell may name it: it is live, or there is none.
fn is_target<H: Heap>(heap: &H, target: Option<u32>) -> bool
    ensures { result ≡ is_target (H.store heap.now).regions target }
{
    match target {
        None => true,
        Some(region) => heap.is_live(region),
    }
}

fn target_cell(target: Option<u32>) -> Cell
    ensures { value_of result ≡ target_value target }
{
    match target {
        None => Cell::Nothing,
        Some(region) => Cell::Region(region),
    }
}

/// Writes a region, or none, into a cell.
pub(crate) fn link<H: Heap>(
    heap: &mut H,
    records: &Records,
    element: Pointer,
    target: Option<u32>,
    steps: &mut Steps<H::Counter>,
) -> Reply
    requires { IsKeptBy records.now (H.store heap.old) }
    ensures { DidLine (Some (Link element.region element.object element.index target)) (H.store heap.old) (H.store heap.new) records.now result }
{
    if !has_cell(heap, records, element) {
        return Reply::Bad;
    }
    if !is_target(heap, target) {
        return Reply::Bad;
    }
    let place = Place {
        pointer: element,
        cell: 0,
    };
    heap.write_counted(place, target_cell(target), steps);
    Reply::Done
}
