// A table of calls.
ghost use Rattle.std.specs.Prelude.{◌≡◌};

use crate::steps::{Step, first_wrong_of_counting, first_wrong_of_plain};
use rc_base::{Limits, Steps};
use rc_store::{Cell, Denied, Heap, MakeFault};
use std::test::Fail;

/// A new region, where its parent is live.
pub(crate) fn child<H: Heap>(heap: &mut H, parent: u32) -> Option<Result<u32, MakeFault>> {
    if !heap.is_live(parent) {
        return None;
    }
    Some(heap.new_region(parent))
}

/// The deletion of a live region.
pub(crate) fn delete<H: Heap>(
    heap: &mut H,
    region: u32,
    counter: &mut Steps<H::Counter>,
) -> Option<Result<(), Denied>>
    ensures { (H.store heap.new).pins ≡ (H.store heap.old).pins }
{
    if !heap.is_live(region) {
        return None;
    }
    Some(heap.delete(region, counter))
}

/// Pins a live region.
pub(crate) fn pin<H: Heap>(heap: &mut H, region: u32) -> bool {
    if !heap.is_live(region) {
        return false;
    }
    match heap.reserve_pins(1) {
        Ok(()) => {
            heap.pin(Cell::Region(region));
            true
        }
        Err(_) => false,
    }
}

/// Two regions may be made, and no objects.
const LIMITS: Limits = Limits {
    turns: 0,
    regions: 2,
    blocks: 0,
};

/// Two regions of three are made, and the fourth is one too many. The root, a parent and a pinned
/// region stay; a leaf goes, and its number isn't live again.
const STEPS: [Step; 12] = [
    Step::Child(0, Some(Ok(1))),
    Step::Child(1, Some(Ok(2))),
    Step::Child(2, Some(Err(MakeFault::Full))),
    Step::Child(3, None),
    Step::Delete(0, Some(Err(Denied::Root))),
    Step::Delete(1, Some(Err(Denied::Subregion))),
    Step::Delete(2, Some(Ok(()))),
    Step::Delete(2, None),
    Step::Pin(1),
    Step::Delete(1, Some(Err(Denied::Reference))),
    Step::IsLive(1, true),
    Step::IsLive(2, false),
];

#[test]
fn the_plain_heap_answers_the_table(rt: HostRuntime) -> Result<(), Fail> {
    let wrong = first_wrong_of_plain(rt.alloc(), Some(&LIMITS), &STEPS)?;
    assert_eq!(rt; wrong, None);
    Ok(())
}

#[test]
fn the_heap_that_counts_answers_the_table(rt: HostRuntime) -> Result<(), Fail> {
    let wrong = first_wrong_of_counting(rt.alloc(), Some(&LIMITS), &STEPS)?;
    assert_eq!(rt; wrong, None);
    Ok(())
}
