// What is read is written back, and pinned, by one who knows of a heap only that it is one.
ghost use Rattle.std.specs.Prelude.{◌≡◌, ◌≢◌, ◌<◌, ◌++◌, ◌∷◌, [], map};
ghost use Rattle.rc_core.specs.Laid.{held_kind};
ghost use Rattle.rc_core.specs.Shapes.{kinds_in};
ghost use Rattle.rc_core.specs.declared.layouts.Kind.TheVariants.{Region as RegionKind};
ghost use Rattle.rc_core.specs.declared.ty.Note.TheVariants.{Plain};
ghost use Rattle.rc_store.specs.Stores.{HasPlace, kind_at, kept_value, written};
ghost use Rattle.rc_store.specs.Values.{note_of};

use crate::references::handle;
use rc_base::{Limits, NoMemory, Steps};
use rc_core::layout::Layout;
use rc_count::CountHeap;
use rc_scan::ScanHeap;
use rc_store::{Cell, Heap, Place, Pointer};
use std::alloc::Global;
use std::marker::Brand;
use std::sync::ledger::{Blank, Ledger};
use std::test::Fail;

/// Writes what a counted cell holds into it.
fn write_back<H: Heap>(heap: &mut H, place: Place, steps: &mut Steps<H::Counter>)
    requires place { HasPlace (H.store heap.old) place }
    requires plain { note_of (kind_at (H.store heap.old) place) ≡ Plain }
    ensures { H.store heap.new ≡ written place (kept_value (H.store heap.old) place) (H.store heap.old) }
{
    heap.stays_whole();
    let value = heap.read(place, steps);
    heap.write_counted(place, value, steps);
}

/// Writes what an annotated cell holds into it.
fn write_again<H: Heap>(heap: &mut H, place: Place, steps: &mut Steps<H::Counter>)
    requires place { HasPlace (H.store heap.old) place }
    requires noted { note_of (kind_at (H.store heap.old) place) ≢ Plain }
    ensures { H.store heap.new ≡ written place (kept_value (H.store heap.old) place) (H.store heap.old) }
{
    heap.stays_whole();
    let value = heap.read(place, steps);
    heap.write_kept(place, value);
}

/// Pins what a cell holds.
fn pin_again<H: Heap>(heap: &mut H, place: Place, steps: &mut Steps<H::Counter>)
    requires place { HasPlace (H.store heap.old) place }
    requires spare { 0 < (H.store heap.old).spare }
    ensures { (H.store heap.new).pins ≡ (H.store heap.old).pins ++ kept_value (H.store heap.old) place ∷ [] }
{
    heap.stays_whole();
    let value = heap.read(place, steps);
    heap.pin(value);
}

/// The one cell of a new object of a live region, written back: what is read from it then.
fn written_back<H: Heap>(
    heap: &mut H,
    region: u32,
    layout: &Layout,
    steps: &mut Steps<H::Counter>,
) -> Option<Cell>
    requires { map held_kind (kinds_in layout.now) ≡ RegionKind ∷ [] }
{
    if !heap.is_live(region) {
        return None;
    }
    match heap.allocate(region, layout, 1) {
        Ok(object) => {
            let place = Place {
                pointer: Pointer {
                    region,
                    object,
                    index: 0,
                },
                cell: 0,
            };
            write_back(heap, place, steps);
            Some(heap.read(place, steps))
        }
        Err(_) => None,
    }
}

/// No region, and one object in region 0.
const LIMITS: Limits = Limits {
    turns: 0,
    regions: 0,
    blocks: 1,
};

fn of_plain<L: Ledger>(alloc: Global, blank: Blank) -> Result<Option<Cell>, NoMemory>
    requires name { blank.name ≡ L.name }
    requires parts { blank.parts ≡ L.parts }
    requires some { 0 < L.parts }
{
    let layout = handle(alloc)?;
    let mut heap = ScanHeap::<L>::new(alloc)?;
    let mut steps = Steps::<L>::start(blank);
    heap.limit(&LIMITS);
    Ok(written_back(&mut heap, 0, &layout, &mut steps))
}

fn of_counting<L: Ledger>(alloc: Global, blank: Blank) -> Result<Option<Cell>, NoMemory>
    requires name { blank.name ≡ L.name }
    requires parts { blank.parts ≡ L.parts }
    requires some { 0 < L.parts }
{
    let layout = handle(alloc)?;
    let mut heap = CountHeap::<L>::new(alloc)?;
    let mut steps = Steps::<L>::start(blank);
    heap.limit(&LIMITS);
    Ok(written_back(&mut heap, 0, &layout, &mut steps))
}

#[test]
fn what_is_read_is_written_back_on_the_plain_heap(rt: HostRuntime) -> Result<(), Fail> {
    assert_eq!(rt;
        of_plain::<Brand>(rt.alloc(), Blank::new(1))?,
        Some(Cell::Nothing)
    );
    Ok(())
}

#[test]
fn what_is_read_is_written_back(rt: HostRuntime) -> Result<(), Fail> {
    assert_eq!(rt;
        of_counting::<Brand>(rt.alloc(), Blank::new(1))?,
        Some(Cell::Nothing)
    );
    Ok(())
}
