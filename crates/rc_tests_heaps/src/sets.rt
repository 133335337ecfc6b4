// Several regions deleted at once.
ghost use Rattle.std.specs.Prelude.{◌≡◌, IsTrue};
ghost use Rattle.rc_store.specs.Sets.{IsSet};

use crate::steps::{Step, first_wrong_of_counting, first_wrong_of_plain};
use rc_base::{Limits, Steps};
use rc_store::{Cell, Denied, Heap, SetHeap};
use std::test::Fail;

/// Whether these are live regions, none of them twice.
fn is_set<H: Heap>(heap: &H, set: &[u32]) -> bool
    ensures { IsTrue result → IsSet (H.store heap.now) set.now }
{
    for at in 0..set.len() {
        if !heap.is_live(set[at]) {
            return false;
        }
        for before in 0..at {
            if set[before] == set[at] {
                return false;
            }
        }
    }
    true
}

/// The deletion of a set, where it is one.
pub(crate) fn delete_set<H: SetHeap>(
    heap: &mut H,
    set: &[u32],
    counter: &mut Steps<H::Counter>,
) -> Option<Result<(), Denied>>
    ensures { (H.store heap.new).pins ≡ (H.store heap.old).pins }
{
    if !is_set(heap, set) {
        return None;
    }
    Some(heap.delete_set(set, counter))
}

/// Pins a live region, tries to delete a set, and takes the pin away again.
pub(crate) fn delete_set_pinned<H: SetHeap>(
    heap: &mut H,
    region: u32,
    set: &[u32],
    counter: &mut Steps<H::Counter>,
) -> Option<Result<(), Denied>> {
    if !heap.is_live(region) || heap.reserve_pins(1).is_err() || !heap.is_live(region) {
        return None;
    }
    heap.pin(Cell::Region(region));
    let answer = delete_set(heap, set, counter);
    heap.unpin(Cell::Region(region));
    answer
}

/// Four regions with two objects each.
const LIMITS: Limits = Limits {
    turns: 0,
    regions: 4,
    blocks: 2,
};

/// Two regions that name each other go together, and neither goes alone.
const RING: [Step; 9] = [
    Step::Child(0, Some(Ok(1))),
    Step::Child(0, Some(Ok(2))),
    Step::Name(1, 2, Some(Ok(Cell::Region(2)))),
    Step::Name(2, 1, Some(Ok(Cell::Region(1)))),
    Step::DeleteSet(&[1], Some(Err(Denied::Reference))),
    Step::DeleteSet(&[1, 1], None),
    Step::DeleteSet(&[1, 2], Some(Ok(()))),
    Step::Child(0, Some(Ok(3))),
    Step::DeleteSet(&[1], None),
];

/// A parent goes with all its children, in any order, and not without one of them.
const FAMILY: [Step; 9] = [
    Step::Child(0, Some(Ok(1))),
    Step::Child(1, Some(Ok(2))),
    Step::Child(1, Some(Ok(3))),
    Step::DeleteSet(&[1, 2], Some(Err(Denied::Subregion))),
    Step::DeleteSet(&[2, 0], Some(Err(Denied::Root))),
    Step::DeleteSet(&[], Some(Ok(()))),
    Step::DeleteSet(&[3, 1, 2], Some(Ok(()))),
    Step::DeleteSet(&[3], None),
    Step::Child(0, Some(Ok(4))),
];

/// A pin of one region keeps all of a set, and so does a reference from beside it, which then stands
/// as before.
const NAMED: [Step; 10] = [
    Step::Child(0, Some(Ok(1))),
    Step::Child(1, Some(Ok(2))),
    Step::Name(0, 2, Some(Ok(Cell::Region(2)))),
    Step::Name(1, 2, Some(Ok(Cell::Region(2)))),
    Step::DeleteSet(&[2, 1], Some(Err(Denied::Reference))),
    Step::DeleteSet(&[1, 2], Some(Err(Denied::Reference))),
    Step::DeleteSetPinned(1, &[1], Some(Err(Denied::Subregion))),
    Step::DeleteSetPinned(2, &[2], Some(Err(Denied::Reference))),
    Step::IsLive(1, true),
    Step::IsLive(2, true),
];

#[test]
fn a_ring_goes_together(rt: HostRuntime) -> Result<(), Fail> {
    assert_eq!(rt;
        first_wrong_of_counting(rt.alloc(), Some(&LIMITS), &RING)?,
        None
    );
    Ok(())
}

#[test]
fn a_ring_goes_together_on_the_plain_heap(rt: HostRuntime) -> Result<(), Fail> {
    assert_eq!(rt;
        first_wrong_of_plain(rt.alloc(), Some(&LIMITS), &RING)?,
        None
    );
    Ok(())
}

#[test]
fn a_family_goes_together(rt: HostRuntime) -> Result<(), Fail> {
    assert_eq!(rt;
        first_wrong_of_counting(rt.alloc(), Some(&LIMITS), &FAMILY)?,
        None
    );
    Ok(())
}

#[test]
fn a_family_goes_together_on_the_plain_heap(rt: HostRuntime) -> Result<(), Fail> {
    assert_eq!(rt;
        first_wrong_of_plain(rt.alloc(), Some(&LIMITS), &FAMILY)?,
        None
    );
    Ok(())
}

#[test]
fn a_named_set_stays(rt: HostRuntime) -> Result<(), Fail> {
    assert_eq!(rt;
        first_wrong_of_counting(rt.alloc(), Some(&LIMITS), &NAMED)?,
        None
    );
    Ok(())
}

#[test]
fn a_named_set_stays_on_the_plain_heap(rt: HostRuntime) -> Result<(), Fail> {
    assert_eq!(rt;
        first_wrong_of_plain(rt.alloc(), Some(&LIMITS), &NAMED)?,
        None
    );
    Ok(())
}
