// Random scripts in which sets are deleted.
ghost use Rattle.std.specs.Prelude.{◌≡◌, ◌<◌, ◌∷◌, [], map};
ghost use Rattle.rc_core.specs.Laid.{held_kind};
ghost use Rattle.rc_core.specs.Shapes.{kinds_in};
ghost use Rattle.rc_core.specs.declared.layouts.Kind.TheVariants.{Region as RegionKind};

use crate::calls::child;
use crate::references::{handle, name};
use crate::scripts::{next, of_cell, of_deletion, of_region};
use crate::sets::{delete_set, delete_set_pinned};
use rc_base::{Limits, NoMemory, Steps};
use rc_core::layout::Layout;
use rc_count::CountHeap;
use rc_scan::ScanHeap;
use rc_store::{Heap, SetHeap};
use std::alloc::Global;
use std::marker::Brand;
use std::sync::ledger::{Blank, Ledger};
use std::test::Fail;

/// Regions 0 to 11 are asked for, whether they are live or not.
const NUMBERS: u64 = 12;

/// One of the first numbers.
fn number(seed: u64) -> u32
    ensures { result < 12 }
{
    ((seed >> 33) % NUMBERS) as u32
}

/// What one random call answers. More regions are made than go, and few references are written, so that
/// sets of several regions go too.
fn step<H: SetHeap>(
    heap: &mut H,
    seed: u64,
    layout: &Layout,
    counter: &mut Steps<H::Counter>,
) -> u64
    requires { map held_kind (kinds_in layout.now) ≡ RegionKind ∷ [] }
{
    let first = number(next(seed));
    let second = number(next(next(seed)));
    let third = number(next(next(next(seed))));
    match (seed >> 40) % 8 {
        0 => of_cell(name(heap, first, second, layout, counter)),
        1 => of_deletion(delete_set(heap, &[first], counter)),
        2 => of_deletion(delete_set(heap, &[first, second], counter)),
        3 => of_deletion(delete_set(heap, &[first, second, third], counter)),
        4 => of_deletion(delete_set_pinned(heap, first, &[second, third], counter)),
        _ => of_region(child(heap, first)),
    }
}

/// What so many random calls answer, in one number.
fn run<H: SetHeap>(heap: &mut H, seed: u64, layout: &Layout, counter: &mut Steps<H::Counter>) -> u64
    requires { map held_kind (kinds_in layout.now) ≡ RegionKind ∷ [] }
{
    let mut at = seed;
    let mut sum: u64 = 0;
    for _ in 0..100 {
        at = next(at);
        sum = sum
            .wrapping_mul(1099511628211)
            .wrapping_add(step(heap, at, layout, counter));
    }
    sum
}

const LIMITS: Limits = Limits {
    turns: 0,
    regions: 11,
    blocks: 4,
};

/// What the plain heap answers.
fn of_plain<L: Ledger>(
    alloc: Global,
    seed: u64,
    layout: &Layout,
    blank: Blank,
) -> Result<u64, NoMemory>
    requires layout { map held_kind (kinds_in layout.now) ≡ RegionKind ∷ [] }
    requires name { blank.name ≡ L.name }
    requires parts { blank.parts ≡ L.parts }
    requires some { 0 < L.parts }
{
    let mut heap = ScanHeap::<L>::new(alloc)?;
    let mut counter = Steps::<L>::start(blank);
    heap.limit(&LIMITS);
    Ok(run(&mut heap, seed, layout, &mut counter))
}

/// What the heap that counts answers.
fn of_counting<L: Ledger>(
    alloc: Global,
    seed: u64,
    layout: &Layout,
    blank: Blank,
) -> Result<u64, NoMemory>
    requires layout { map held_kind (kinds_in layout.now) ≡ RegionKind ∷ [] }
    requires name { blank.name ≡ L.name }
    requires parts { blank.parts ≡ L.parts }
    requires some { 0 < L.parts }
{
    let mut heap = CountHeap::<L>::new(alloc)?;
    let mut counter = Steps::<L>::start(blank);
    heap.limit(&LIMITS);
    Ok(run(&mut heap, seed, layout, &mut counter))
}

/// The first seed for which the heaps answer differently, if there is one.
fn first_different(alloc: Global) -> Result<Option<u64>, NoMemory> {
    let layout = handle(alloc)?;
    for seed in 1..200 {
        let plain = of_plain::<Brand>(alloc, seed, &layout, Blank::new(1))?;
        let counting = of_counting::<Brand>(alloc, seed, &layout, Blank::new(1))?;
        if plain != counting {
            return Ok(Some(seed));
        }
    }
    Ok(None)
}

#[test]
fn both_heaps_answer_the_same_of_sets(rt: HostRuntime) -> Result<(), Fail> {
    assert_eq!(rt; first_different(rt.alloc())?, None);
    Ok(())
}
