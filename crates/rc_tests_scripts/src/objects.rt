// Objects without elements, of elements without cells, very many of them, and one that no memory holds.
ghost use Rattle.std.specs.Prelude.{◌<◌};

use rc_base::Limits;
use rc_core::layout::{CellKind, Layout};
use rc_count::CountHeap;
use rc_scan::ScanHeap;
use rc_store::{Heap, MakeFault};
use std::alloc::{AllocError, Global};
use std::marker::Brand;
use std::test::Fail;

/// An element of so many cells, each of which holds a region.
fn handles(alloc: Global, width: u32) -> Result<Layout, AllocError> {
    let mut cells = Vec::new(alloc);
    for _ in 0..width {
        cells.push(CellKind::Region)?;
    }
    Ok(Layout { cells })
}

/// A new object of region 0: its number, and how many elements it has.
fn object<H: Heap>(
    heap: &mut H,
    layout: &Layout,
    count: u32,
) -> Option<Result<(u32, u32), MakeFault>>
    requires { count < 2147483648 }
{
    if !heap.is_live(0) {
        return None;
    }
    match heap.allocate(0, layout, count) {
        Ok(number) => Some(Ok((number, heap.elements(0, number)))),
        Err(fault) => Some(Err(fault)),
    }
}

/// Neither an object without elements nor one whose elements have no cells has a cell, and both count.
fn makes_objects_without_cells<H: Heap>(heap: &mut H, none: &Layout, one: &Layout) -> bool {
    object(heap, none, 5) == Some(Ok((0, 5)))
        && object(heap, one, 0) == Some(Ok((1, 0)))
        && object(heap, none, 0) == Some(Ok((2, 0)))
        && object(heap, one, 1) == Some(Ok((3, 1)))
}

/// Makes so many objects of one cell in region 0.
fn makes_many<H: Heap>(heap: &mut H, one: &Layout, count: u32) -> bool {
    for number in 0..count {
        if object(heap, one, 1) != Some(Ok((number, 1))) {
            return false;
        }
    }
    true
}

/// An object that no memory holds is refused, and the next one gets its number.
fn refuses_too_much<H: Heap>(heap: &mut H, huge: &Layout, one: &Layout) -> bool {
    object(heap, one, 1) == Some(Ok((0, 1)))
        && object(heap, huge, 2147483647) == Some(Err(MakeFault::Memory))
        && object(heap, one, 1) == Some(Ok((1, 1)))
}

/// The largest limits.
fn limits() -> Limits {
    Limits {
        turns: 0,
        regions: u32::MAX,
        blocks: u32::MAX,
    }
}

#[test]
fn the_plain_heap_has_objects_without_cells(rt: HostRuntime) -> Result<(), Fail> {
    let none = handles(rt.alloc(), 0)?;
    let one = handles(rt.alloc(), 1)?;
    let mut heap = ScanHeap::<Brand>::new(rt.alloc())?;
    heap.limit(&limits());
    assert!(rt; makes_objects_without_cells(&mut heap, &none, &one));
    Ok(())
}

#[test]
fn the_heap_that_counts_has_objects_without_cells(rt: HostRuntime) -> Result<(), Fail> {
    let none = handles(rt.alloc(), 0)?;
    let one = handles(rt.alloc(), 1)?;
    let mut heap = CountHeap::<Brand>::new(rt.alloc())?;
    heap.limit(&limits());
    assert!(rt; makes_objects_without_cells(&mut heap, &none, &one));
    // as many elements as an object may have need no memory where they have no cells
    assert!(rt; object(&mut heap, &none, 2147483647) == Some(Ok((4, 2147483647))));
    Ok(())
}

#[test]
fn a_region_has_very_many_objects(rt: HostRuntime) -> Result<(), Fail> {
    let one = handles(rt.alloc(), 1)?;
    let mut heap = CountHeap::<Brand>::new(rt.alloc())?;
    heap.limit(&limits());
    assert!(rt; makes_many(&mut heap, &one, 1_000_000));
    Ok(())
}

/// Elements of 3,000,000 cells, of which as many as an object may have are more than any system can
/// address.
#[test]
fn an_object_that_no_memory_holds_changes_nothing(rt: HostRuntime) -> Result<(), Fail> {
    let huge = handles(rt.alloc(), 3_000_000)?;
    let one = handles(rt.alloc(), 1)?;
    let mut heap = CountHeap::<Brand>::new(rt.alloc())?;
    heap.limit(&limits());
    assert!(rt; refuses_too_much(&mut heap, &huge, &one));
    Ok(())
}
