// The globals of an image.
ghost use Rattle.std.specs.Prelude.{◌≡◌, ◌<◌, ◌++◌, ◌∷◌, [], length, OnOk};
ghost use Rattle.std.specs.List.{AllByRecursion as Every};
ghost use Rattle.rc_core.specs.Numbers.{IsByte};
ghost use Rattle.rc_core.specs.Shapes.{kinds_in};
ghost use Rattle.rc_code.specs.declared.image.Initial.TheVariants.{Bytes, Number};
ghost use Rattle.rc_code.specs.Image.{GlobalFits};
ghost use Rattle.rc_worlds.specs.Meanings.{AreBytes, GlobalsHaveBytes};
ghost use Rattle.rc_store.specs.Stores.{IsNew};
ghost use Rattle.rc_first_heap.specs.First.{IsAlone, IsNumber, first_of, holding, kept_first, kept_global, kept_globals};

use crate::cells::{first_number, write_number};
use crate::layouts::layout_of;
use rc_base::{NoMemory, Steps};
use rc_code::{Global, Image, Initial, Parts};
use rc_core::layout::Layout;
use rc_store::Heap;
use std::alloc::Global as Alloc;

/// Appends an object of one number cell, which begins with this number.
///
/// # Errors
///
/// Out of memory.
fn add_number<H: Heap>(
    heap: &mut H,
    layout: &Layout,
    n: u32,
    steps: &mut Steps<H::Counter>,
) -> Result<(), NoMemory>
    requires numbers { IsNumber (kinds_in layout.now) }
    requires alone { IsAlone (H.store heap.old) }
    requires few { length (first_of (H.store heap.old)) < 4294967295 }
    ensures { OnOk result (H.store heap.new ≡ holding (first_of (H.store heap.old) ++ kept_first (kinds_in layout.now) 1 (Number n) ∷ []) (H.store heap.old)) }
{
    let object = heap.add_global(layout, 1)?;
    let value = first_number(&layout.cells[0], n);
    write_number(heap, object, 0, value, steps);
    Ok(())
}

/// Appends an object of so many number cells, which begin with these bytes.
///
/// # Errors
///
/// Out of memory.
fn add_bytes<H: Heap>(
    heap: &mut H,
    layout: &Layout,
    n: u32,
    bytes: &[u8],
    steps: &mut Steps<H::Counter>,
) -> Result<(), NoMemory>
    requires numbers { IsNumber (kinds_in layout.now) }
    requires all { length bytes.now ≡ n }
    requires alone { IsAlone (H.store heap.old) }
    requires few { length (first_of (H.store heap.old)) < 4294967295 }
    ensures heap { OnOk result (H.store heap.new ≡ holding (first_of (H.store heap.old) ++ kept_first (kinds_in layout.now) n (Bytes bytes.now) ∷ []) (H.store heap.old)) }
    ensures bytes { OnOk result (Every IsByte bytes.now) }
{
    let object = heap.add_global(layout, n)?;
    for element in 0..n {
        let byte = bytes[element as usize];
        write_number(heap, object, element, i64::from(byte), steps);
    }
    Ok(())
}

/// Appends the object of a global, with its first values.
///
/// # Errors
///
/// Out of memory.
fn add_global<H: Heap>(
    alloc: Alloc,
    parts: &Parts,
    global: &Global,
    heap: &mut H,
    steps: &mut Steps<H::Counter>,
) -> Result<(), NoMemory>
    requires fits { GlobalFits parts.now.types global.now }
    requires alone { IsAlone (H.store heap.old) }
    requires few { length (first_of (H.store heap.old)) < 4294967295 }
    ensures heap { OnOk result (H.store heap.new ≡ holding (first_of (H.store heap.old) ++ kept_global parts.now global.now ∷ []) (H.store heap.old)) }
    ensures bytes { OnOk result (AreBytes global.now.initial) }
{
    let cells = &parts.types.as_slice()[global.type_number as usize];
    let layout = layout_of(alloc, cells.as_slice())?;
    match &global.initial {
        Initial::Zeros => {
            heap.add_global(&layout, global.elements)?;
            Ok(())
        }
        Initial::Number(n) => add_number(heap, &layout, *n, steps),
        Initial::Bytes(bytes) => {
            add_bytes(heap, &layout, global.elements, bytes.as_slice(), steps)
        }
    }
}

/// Gives an unused heap the globals of an image: one object for each, in their order, with the values
/// that they begin with.
///
/// # Errors
///
/// Out of memory.
pub fn add_globals<H: Heap>(
    alloc: Alloc,
    image: &Image,
    heap: &mut H,
    steps: &mut Steps<H::Counter>,
) -> Result<(), NoMemory>
    requires { IsNew (H.store heap.old) }
    ensures heap { OnOk result (H.store heap.new ≡ holding (kept_globals image.now) (H.store heap.old)) }
    ensures bytes { OnOk result (GlobalsHaveBytes image.now) }
{
    let parts = image.parts();
    for global in parts.globals.as_slice() {
        add_global(alloc, parts, global, heap, steps)?;
    }
    Ok(())
}
