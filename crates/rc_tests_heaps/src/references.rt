// Objects that name regions, and pins.
ghost use Rattle.std.specs.Prelude.{◌≡◌, ◌∷◌, [], Some, map, IfOk};
ghost use Rattle.rc_store.specs.Stores.{no_view};
ghost use Rattle.rc_core.specs.Laid.{held_kind};
ghost use Rattle.rc_core.specs.Shapes.{kinds_in};
ghost use Rattle.rc_core.specs.declared.layouts.Kind.TheVariants.{Region as RegionKind};

use crate::calls::delete;
use crate::steps::{Step, first_wrong_of_counting, first_wrong_of_plain};
use rc_base::{Limits, NoMemory, Steps};
use rc_core::layout::{CellKind, Layout};
use rc_core::ty::Note;
use rc_count::CountHeap;
use rc_scan::ScanHeap;
use rc_store::{Cell, Denied, Heap, MakeFault, Place, Pointer};
use std::alloc::{AllocError, Global};
use std::marker::Brand;
use std::test::Fail;

/// An element with one cell, which holds a region.
pub(crate) fn handle(alloc: Global) -> Result<Layout, AllocError>
    ensures { IfOk result (λ layout. map held_kind (kinds_in layout) ≡ RegionKind ∷ []) }
{
    let mut cells = Vec::new(alloc);
    cells.push(CellKind::Region)?;
    Ok(Layout { cells })
}

/// A new object of a live region, whose one cell names a live region: what is read from it then.
pub(crate) fn name<H: Heap>(
    heap: &mut H,
    holder: u32,
    target: u32,
    layout: &Layout,
    counter: &mut Steps<H::Counter>,
) -> Option<Result<Cell, MakeFault>>
    requires { map held_kind (kinds_in layout.now) ≡ RegionKind ∷ [] }
{
    if !heap.is_live(holder) || !heap.is_live(target) {
        return None;
    }
    match heap.allocate(holder, layout, 1) {
        Ok(object) => {
            let place = Place {
                pointer: Pointer {
                    region: holder,
                    object,
                    index: 0,
                },
                cell: 0,
            };
            heap.write_counted(place, Cell::Region(target), counter);
            Some(Ok(heap.read(place, counter)))
        }
        Err(fault) => Some(Err(fault)),
    }
}

/// Whether a live region fits an annotation in a live region's objects.
pub(crate) fn fits<H: Heap>(
    heap: &H,
    holder: u32,
    region: u32,
    note: Note,
    counter: &mut Steps<H::Counter>,
) -> Option<bool> {
    if !heap.is_live(holder) || !heap.is_live(region) {
        return None;
    }
    Some(heap.fits(note, holder, Cell::Region(region), counter))
}

/// Pins a live region, tries to delete it, and takes the pin away again.
pub(crate) fn delete_pinned<H: Heap>(
    heap: &mut H,
    region: u32,
    counter: &mut Steps<H::Counter>,
) -> Option<Result<(), Denied>> {
    if !heap.is_live(region) || heap.reserve_pins(1).is_err() || !heap.is_live(region) {
        return None;
    }
    heap.pin(Cell::Region(region));
    let answer = delete(heap, region, counter);
    heap.unpin(Cell::Region(region));
    answer
}

/// A global of three elements is the first object of region 0.
fn makes_a_global<H: Heap>(heap: &mut H, layout: &Layout) -> bool
    requires { (H.store heap.old).regions ≡ Some no_view ∷ [] }
{
    match heap.add_global(layout, 3) {
        Ok(object) => object == 0,
        Err(_) => false,
    }
}

fn plain_makes_a_global(alloc: Global) -> Result<bool, NoMemory> {
    let layout = handle(alloc)?;
    let mut heap = ScanHeap::<Brand>::new(alloc)?;
    Ok(makes_a_global(&mut heap, &layout))
}

fn counting_makes_a_global(alloc: Global) -> Result<bool, NoMemory> {
    let layout = handle(alloc)?;
    let mut heap = CountHeap::<Brand>::new(alloc)?;
    Ok(makes_a_global(&mut heap, &layout))
}

/// Two regions with two objects each.
const LIMITS: Limits = Limits {
    turns: 0,
    regions: 2,
    blocks: 2,
};

/// Where nothing may be made, nothing is.
const REFUSED: [Step; 2] = [
    Step::Child(0, Some(Err(MakeFault::Full))),
    Step::Name(0, 0, Some(Err(MakeFault::Full))),
];

/// A parent is above its child, and a child isn't above its parent.
const PARENTS: [Step; 7] = [
    Step::Child(0, Some(Ok(1))),
    Step::Child(1, Some(Ok(2))),
    Step::Fits(2, 1, Note::ParentPtr, Some(true)),
    Step::Fits(1, 2, Note::ParentPtr, Some(false)),
    Step::Fits(2, 1, Note::SameRegion, Some(false)),
    Step::Fits(2, 0, Note::Traditional, Some(true)),
    Step::Fits(1, 2, Note::Plain, Some(true)),
];

/// Seven regions with two objects each.
const DEEPER: Limits = Limits {
    turns: 0,
    regions: 7,
    blocks: 2,
};

/// A region comes in the place of one that was less deep, and those below it have three ancestors and more.
const ANCESTORS: [Step; 14] = [
    Step::Child(0, Some(Ok(1))),
    Step::Child(0, Some(Ok(2))),
    Step::Delete(1, Some(Ok(()))),
    Step::Child(2, Some(Ok(3))),
    Step::Child(3, Some(Ok(4))),
    Step::Child(4, Some(Ok(5))),
    Step::Child(5, Some(Ok(6))),
    Step::Child(0, Some(Ok(7))),
    Step::Fits(6, 2, Note::ParentPtr, Some(true)),
    Step::Fits(6, 3, Note::ParentPtr, Some(true)),
    Step::Fits(5, 2, Note::ParentPtr, Some(true)),
    Step::Fits(2, 6, Note::ParentPtr, Some(false)),
    Step::Fits(6, 7, Note::ParentPtr, Some(false)),
    Step::Fits(7, 3, Note::ParentPtr, Some(false)),
];

/// A reference from another region or a pin refuses a deletion, one from inside doesn't; and it goes
/// with its region.
const REFERENCES: [Step; 9] = [
    Step::Child(0, Some(Ok(1))),
    Step::Child(0, Some(Ok(2))),
    Step::Name(1, 2, Some(Ok(Cell::Region(2)))),
    Step::Name(1, 1, Some(Ok(Cell::Region(1)))),
    Step::Name(1, 1, Some(Err(MakeFault::Full))),
    Step::Delete(2, Some(Err(Denied::Reference))),
    Step::DeletePinned(1, Some(Err(Denied::Reference))),
    Step::Delete(1, Some(Ok(()))),
    Step::Delete(2, Some(Ok(()))),
];

#[test]
fn the_plain_heap_refuses_all(rt: HostRuntime) -> Result<(), Fail> {
    assert_eq!(rt; first_wrong_of_plain(rt.alloc(), None, &REFUSED)?, None);
    Ok(())
}

#[test]
fn the_plain_heap_knows_parents(rt: HostRuntime) -> Result<(), Fail> {
    assert_eq!(rt;
        first_wrong_of_plain(rt.alloc(), Some(&LIMITS), &PARENTS)?,
        None
    );
    Ok(())
}

#[test]
fn the_plain_heap_knows_ancestors(rt: HostRuntime) -> Result<(), Fail> {
    assert_eq!(rt;
        first_wrong_of_plain(rt.alloc(), Some(&DEEPER), &ANCESTORS)?,
        None
    );
    Ok(())
}

#[test]
fn the_plain_heap_makes_a_global(rt: HostRuntime) -> Result<(), Fail> {
    assert!(rt; plain_makes_a_global(rt.alloc())?);
    Ok(())
}

#[test]
fn the_plain_heap_counts_from_outside(rt: HostRuntime) -> Result<(), Fail> {
    assert_eq!(rt;
        first_wrong_of_plain(rt.alloc(), Some(&LIMITS), &REFERENCES)?,
        None
    );
    Ok(())
}

#[test]
fn the_heap_that_counts_refuses_all(rt: HostRuntime) -> Result<(), Fail> {
    assert_eq!(rt; first_wrong_of_counting(rt.alloc(), None, &REFUSED)?, None);
    Ok(())
}

#[test]
fn the_heap_that_counts_knows_parents(rt: HostRuntime) -> Result<(), Fail> {
    assert_eq!(rt;
        first_wrong_of_counting(rt.alloc(), Some(&LIMITS), &PARENTS)?,
        None
    );
    Ok(())
}

#[test]
fn the_heap_that_counts_knows_ancestors(rt: HostRuntime) -> Result<(), Fail> {
    assert_eq!(rt;
        first_wrong_of_counting(rt.alloc(), Some(&DEEPER), &ANCESTORS)?,
        None
    );
    Ok(())
}

#[test]
fn the_heap_that_counts_makes_a_global(rt: HostRuntime) -> Result<(), Fail> {
    assert!(rt; counting_makes_a_global(rt.alloc())?);
    Ok(())
}

#[test]
fn the_heap_that_counts_counts_from_outside(rt: HostRuntime) -> Result<(), Fail> {
    assert_eq!(rt;
        first_wrong_of_counting(rt.alloc(), Some(&LIMITS), &REFERENCES)?,
        None
    );
    Ok(())
}
