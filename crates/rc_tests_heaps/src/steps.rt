// Tables of calls with their answers, and the walk over them through each heap.
ghost use Rattle.std.specs.Prelude.{◌≡◌, ◌<◌, ◌∷◌, [], map};
ghost use Rattle.rc_core.specs.Laid.{held_kind};
ghost use Rattle.rc_core.specs.Shapes.{kinds_in};
ghost use Rattle.rc_core.specs.declared.layouts.Kind.TheVariants.{Region as RegionKind};

use crate::calls::{child, delete, pin};
use crate::references::{delete_pinned, fits, handle, name};
use crate::sets::{delete_set, delete_set_pinned};
use rc_base::{Limits, NoMemory, Steps};
use rc_core::layout::Layout;
use rc_core::ty::Note;
use rc_count::CountHeap;
use rc_scan::ScanHeap;
use rc_store::{Cell, Denied, Heap, MakeFault, SetHeap};
use std::alloc::Global;
use std::marker::Brand;
use std::sync::ledger::{Blank, Ledger};

/// A call with its answer, or none where what it asks for isn't live.
#[derive(Clone, Copy)]
pub(crate) enum Step {
    /// A new child of a region.
    Child(u32, Option<Result<u32, MakeFault>>),
    /// An object of the first region whose cell names the second, and what is read from it then.
    Name(u32, u32, Option<Result<Cell, MakeFault>>),
    /// Whether the second region fits an annotation in the first one's objects.
    Fits(u32, u32, Note, Option<bool>),
    Delete(u32, Option<Result<(), Denied>>),
    DeletePinned(u32, Option<Result<(), Denied>>),
    DeleteSet(&'static [u32], Option<Result<(), Denied>>),
    /// A region is pinned, and a set deleted.
    DeleteSetPinned(u32, &'static [u32], Option<Result<(), Denied>>),
    /// A live region is pinned.
    Pin(u32),
    IsLive(u32, bool),
}

fn is_answered<H: SetHeap>(
    heap: &mut H,
    layout: &Layout,
    step: Step,
    counter: &mut Steps<H::Counter>,
) -> bool
    requires { map held_kind (kinds_in layout.now) ≡ RegionKind ∷ [] }
{
    match step {
        Step::Child(parent, answer) => child(heap, parent) == answer,
        Step::Name(holder, target, answer) => {
            name(heap, holder, target, layout, counter) == answer
        }
        Step::Fits(holder, region, note, answer) => {
            fits(heap, holder, region, note, counter) == answer
        }
        Step::Delete(region, answer) => delete(heap, region, counter) == answer,
        Step::DeletePinned(region, answer) => delete_pinned(heap, region, counter) == answer,
        Step::DeleteSet(set, answer) => delete_set(heap, set, counter) == answer,
        Step::DeleteSetPinned(region, set, answer) => {
            delete_set_pinned(heap, region, set, counter) == answer
        }
        Step::Pin(region) => pin(heap, region),
        Step::IsLive(region, live) => heap.is_live(region) == live,
    }
}

/// The first step that isn't answered so, if there is one.
fn first_wrong<H: SetHeap>(
    heap: &mut H,
    layout: &Layout,
    steps: &[Step],
    counter: &mut Steps<H::Counter>,
) -> Option<usize>
    requires { map held_kind (kinds_in layout.now) ≡ RegionKind ∷ [] }
{
    for (place, step) in steps.iter().enumerate() {
        if !is_answered(heap, layout, *step, counter) {
            return Some(place);
        }
    }
    None
}

fn walk_plain<L: Ledger>(
    alloc: Global,
    limits: Option<&Limits>,
    steps: &[Step],
    blank: Blank,
) -> Result<Option<usize>, NoMemory>
    requires name { blank.name ≡ L.name }
    requires parts { blank.parts ≡ L.parts }
    requires some { 0 < L.parts }
{
    let layout = handle(alloc)?;
    let mut heap = ScanHeap::<L>::new(alloc)?;
    let mut counter = Steps::<L>::start(blank);
    if let Some(limits) = limits {
        heap.limit(limits);
    }
    Ok(first_wrong(&mut heap, &layout, steps, &mut counter))
}

/// The first step that the plain heap doesn't answer so, if there is one. Without limits nothing may
/// be made.
pub(crate) fn first_wrong_of_plain(
    alloc: Global,
    limits: Option<&Limits>,
    steps: &[Step],
) -> Result<Option<usize>, NoMemory> {
    walk_plain::<Brand>(alloc, limits, steps, Blank::new(1))
}

fn walk_counting<L: Ledger>(
    alloc: Global,
    limits: Option<&Limits>,
    steps: &[Step],
    blank: Blank,
) -> Result<Option<usize>, NoMemory>
    requires name { blank.name ≡ L.name }
    requires parts { blank.parts ≡ L.parts }
    requires some { 0 < L.parts }
{
    let layout = handle(alloc)?;
    let mut heap = CountHeap::<L>::new(alloc)?;
    let mut counter = Steps::<L>::start(blank);
    if let Some(limits) = limits {
        heap.limit(limits);
    }
    Ok(first_wrong(&mut heap, &layout, steps, &mut counter))
}

/// The same of the heap that counts.
pub(crate) fn first_wrong_of_counting(
    alloc: Global,
    limits: Option<&Limits>,
    steps: &[Step],
) -> Result<Option<usize>, NoMemory> {
    walk_counting::<Brand>(alloc, limits, steps, Blank::new(1))
}
