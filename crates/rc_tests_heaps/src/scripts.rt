// Random scripts.
ghost use Rattle.std.specs.Prelude.{◌≡◌, ◌<◌, ◌≤◌, ◌∷◌, [], map};
ghost use Rattle.rc_core.specs.Laid.{held_kind};
ghost use Rattle.rc_core.specs.Shapes.{kinds_in};
ghost use Rattle.rc_core.specs.declared.layouts.Kind.TheVariants.{Region as RegionKind};

use crate::calls::{child, delete};
use crate::references::{delete_pinned, handle, name};
use rc_base::{Limits, NoMemory, Steps};
use rc_core::layout::Layout;
use rc_count::CountHeap;
use rc_scan::ScanHeap;
use rc_store::{Cell, Denied, Heap, MakeFault};
use std::alloc::Global;
use std::marker::Brand;
use std::sync::ledger::{Blank, Ledger};
use std::test::Fail;

/// Regions 0 to 39 are asked for, whether they are live or not.
const NUMBERS: u64 = 40;

pub(crate) fn next(seed: u64) -> u64 {
    seed.wrapping_mul(6364136223846793005)
        .wrapping_add(1442695040888963407)
}

/// One of the first numbers.
fn number(seed: u64) -> u32
    ensures { result < 40 }
{
    ((seed >> 33) % NUMBERS) as u32
}

pub(crate) fn of_region(answer: Option<Result<u32, MakeFault>>) -> u64 {
    match answer {
        None => 1,
        Some(Ok(region)) => 1000 + region as u64,
        Some(Err(MakeFault::Full)) => 2,
        Some(Err(MakeFault::Memory)) => 3,
    }
}

pub(crate) fn of_cell(answer: Option<Result<Cell, MakeFault>>) -> u64 {
    match answer {
        None => 4,
        Some(Ok(Cell::Region(region))) => 2000 + region as u64,
        Some(Ok(_)) => 5,
        Some(Err(MakeFault::Full)) => 6,
        Some(Err(MakeFault::Memory)) => 7,
    }
}

pub(crate) fn of_deletion(answer: Option<Result<(), Denied>>) -> u64 {
    match answer {
        None => 8,
        Some(Ok(())) => 9,
        Some(Err(Denied::Root)) => 10,
        Some(Err(Denied::Subregion)) => 11,
        Some(Err(Denied::Reference)) => 12,
    }
}

/// What one random call answers.
fn step<H: Heap>(heap: &mut H, seed: u64, layout: &Layout, counter: &mut Steps<H::Counter>) -> u64
    requires { map held_kind (kinds_in layout.now) ≡ RegionKind ∷ [] }
{
    let first = number(next(seed));
    let second = number(next(next(seed)));
    match (seed >> 40) % 8 {
        0 => of_region(child(heap, first)),
        1 => of_cell(name(heap, first, second, layout, counter)),
        2 => of_deletion(delete_pinned(heap, first, counter)),
        3 => of_cell(name(heap, second, first, layout, counter)),
        4 => of_region(child(heap, second)),
        _ => of_deletion(delete(heap, first, counter)),
    }
}

/// What so many random calls answer, in one number.
fn run<H: Heap>(heap: &mut H, seed: u64, layout: &Layout, counter: &mut Steps<H::Counter>) -> u64
    requires { map held_kind (kinds_in layout.now) ≡ RegionKind ∷ [] }
{
    let mut at = seed;
    let mut sum: u64 = 0;
    for _ in 0..2000 {
        at = next(at);
        sum = sum
            .wrapping_mul(1099511628211)
            .wrapping_add(step(heap, at, layout, counter));
    }
    sum
}

const LIMITS: Limits = Limits {
    turns: 0,
    regions: 36,
    blocks: 20,
};

/// What the plain heap answers.
fn of_plain<L: Ledger>(
    alloc: Global,
    seed: u64,
    layout: &Layout,
    blank: Blank,
) -> Result<u64, NoMemory>
    requires layout { map held_kind (kinds_in layout.now) ≡ RegionKind ∷ [] }
    requires name { blank.name ≡ L.name }
    requires parts { blank.parts ≡ L.parts }
    requires some { 0 < L.parts }
{
    let mut heap = ScanHeap::<L>::new(alloc)?;
    let mut counter = Steps::<L>::start(blank);
    heap.limit(&LIMITS);
    Ok(run(&mut heap, seed, layout, &mut counter))
}

/// What the heap that counts answers.
fn of_counting<L: Ledger>(
    alloc: Global,
    seed: u64,
    layout: &Layout,
    blank: Blank,
) -> Result<u64, NoMemory>
    requires layout { map held_kind (kinds_in layout.now) ≡ RegionKind ∷ [] }
    requires name { blank.name ≡ L.name }
    requires parts { blank.parts ≡ L.parts }
    requires some { 0 < L.parts }
{
    let mut heap = CountHeap::<L>::new(alloc)?;
    let mut counter = Steps::<L>::start(blank);
    heap.limit(&LIMITS);
    Ok(run(&mut heap, seed, layout, &mut counter))
}

/// The first seed for which the heaps answer differently, if there is one.
fn first_different(alloc: Global) -> Result<Option<u64>, NoMemory> {
    let layout = handle(alloc)?;
    for seed in 1..9 {
        let plain = of_plain::<Brand>(alloc, seed, &layout, Blank::new(1))?;
        let counting = of_counting::<Brand>(alloc, seed, &layout, Blank::new(1))?;
        if plain != counting {
            return Ok(Some(seed));
        }
    }
    Ok(None)
}

#[test]
fn both_heaps_answer_the_same(rt: HostRuntime) -> Result<(), Fail> {
    assert_eq!(rt; first_different(rt.alloc())?, None);
    Ok(())
}
