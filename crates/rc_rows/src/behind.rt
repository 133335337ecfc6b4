// What is seen of the heap behind a call.
use rc_base::{NoMemory, Steps};
use rc_core::layout::Layout;
use rc_store::{Heap, MakeFault};
use std::alloc::{AllocError, Global};

/// How many regions are looked at, and how many regions and objects are tried.
const MOST: u32 = 300;

/// What is seen of a heap.
#[derive(Drop)]
pub(crate) struct Seen {
    /// The numbers of the regions but 0 that are live, from the last to the first.
    pub(crate) live: Vec<u64>,
    /// Those of them that stay when each is deleted in this order.
    pub(crate) held: Vec<u64>,
    /// How many regions more are made then, and how many objects in the last one of these.
    pub(crate) room: Vec<u64>,
}

impl Seen {
    /// Nothing yet.
    pub(crate) fn nothing(alloc: Global) -> Seen {
        Seen {
            live: Vec::new(alloc),
            held: Vec::new(alloc),
            room: Vec::new(alloc),
        }
    }
}

/// Deletes a region, where it is live, and answers whether it stays.
fn stays<H: Heap>(heap: &mut H, region: u32, steps: &mut Steps<H::Counter>) -> bool {
    if !heap.is_live(region) {
        return false;
    }
    heap.delete(region, steps).is_err()
}

/// Deletes what is live, from the last region to the first.
fn delete_all<H: Heap>(
    heap: &mut H,
    seen: &mut Seen,
    steps: &mut Steps<H::Counter>,
) -> Result<(), AllocError> {
    for before in (0..MOST).rev() {
        let region = before + 1;
        if heap.is_live(region) {
            seen.live.push(u64::from(region))?;
            if stays(heap, region, steps) {
                seen.held.push(u64::from(region))?;
            }
        }
    }
    Ok(())
}

/// Makes a region under region 0, or none where the heap is full.
fn make_region<H: Heap>(heap: &mut H) -> Result<Option<u32>, NoMemory> {
    if !heap.is_live(0) {
        return Ok(None);
    }
    match heap.new_region(0) {
        Ok(region) => Ok(Some(region)),
        Err(MakeFault::Full) => Ok(None),
        Err(MakeFault::Memory) => Err(NoMemory),
    }
}

/// Makes regions until the heap is full, and answers the last one: region 0, where none is made.
fn make_regions<H: Heap>(heap: &mut H, room: &mut Vec<u64>) -> Result<u32, NoMemory> {
    let mut made = 0u64;
    let mut last = 0;
    for _ in 0..MOST {
        match make_region(heap)? {
            Some(region) => last = region,
            None => break,
        }
        made = made.saturating_add(1);
    }
    room.push(made)?;
    Ok(last)
}

/// Makes an object in a region, and answers whether it had room.
fn makes_object<H: Heap>(heap: &mut H, region: u32, kind: &Layout) -> Result<bool, NoMemory> {
    if !heap.is_live(region) {
        return Ok(false);
    }
    match heap.allocate(region, kind, 1) {
        Ok(_object) => Ok(true),
        Err(MakeFault::Full) => Ok(false),
        Err(MakeFault::Memory) => Err(NoMemory),
    }
}

/// Makes objects in a region until it is full.
fn make_objects<H: Heap>(
    heap: &mut H,
    region: u32,
    kind: &Layout,
    room: &mut Vec<u64>,
) -> Result<(), NoMemory> {
    let mut made = 0u64;
    for _ in 0..MOST {
        if !makes_object(heap, region, kind)? {
            break;
        }
        made = made.saturating_add(1);
    }
    Ok(room.push(made)?)
}

/// Looks at a heap: which regions are live, which of them stay, and how many regions and objects it then
/// has room for.
///
/// # Errors
///
/// Out of memory.
pub(crate) fn look<H: Heap>(
    alloc: Global,
    heap: &mut H,
    seen: &mut Seen,
    steps: &mut Steps<H::Counter>,
) -> Result<(), NoMemory> {
    delete_all(heap, seen, steps)?;
    let last = make_regions(heap, &mut seen.room)?;
    let kind = Layout {
        cells: Vec::new(alloc),
    };
    make_objects(heap, last, &kind, &mut seen.room)
}

fn same_numbers(a: &[u64], b: &[u64]) -> bool {
    a == b
}

/// Whether the same is seen of two heaps.
pub(crate) fn is_same(a: &Seen, b: &Seen) -> bool {
    if !same_numbers(a.live.as_slice(), b.live.as_slice()) {
        return false;
    }
    if !same_numbers(a.held.as_slice(), b.held.as_slice()) {
        return false;
    }
    same_numbers(a.room.as_slice(), b.room.as_slice())
}
