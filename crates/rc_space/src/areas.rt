// One area among others.
ghost use Rattle.std.specs.Prelude.{◌≡◌, ◌<◌, ◌+◌, ◌*◌, ◌++◌, ◌∷◌, [], length, All, IsTrue, OnOk, OnErr, slice_index_or, slice_set};
ghost use Rattle.rc_core.specs.declared.layouts.Kind.TheVariants.{Number as NumberKind};
ghost use Rattle.rc_store.specs.Kept.{blank};
ghost use Rattle.rc_store.specs.Stores.{HasCell, cell_place, cell_value, no_object, objects_with};
ghost use Rattle.rc_store.specs.Values.{suits, value_of};
ghost use Rattle.rc_areas.specs.Areas.{IsLaid, objects_of};
ghost use Rattle.rc_registry.specs.Registries.{IsMember, at_slots};
ghost use Rattle.rc_space.specs.Spaces.{IsBeside, area_at, no_area};

use rc_areas::{Area, Shapes};
use rc_base::{NoMemory, Steps};
use rc_pages::Bank;
use rc_registry::Registry;
use rc_store::{Cell, Place};
use std::sync::ledger::Ledger;

/// Appends an object of so many elements of a shape, all zero or null.
pub(crate) fn push_object<L: Ledger>(
    areas: &mut [Area<L>],
    slot: usize,
    shape: u32,
    count: u32,
    size: u64,
    shapes: &Shapes,
    bank: &mut Bank<L>,
) -> Result<(), NoMemory>
    requires slot { slot < length areas.old }
    requires laid { IsLaid shapes.now (area_at areas.old slot) }
    requires shape { shape < length shapes.now }
    requires size { size ≡ count * length (slice_index_or shapes.now shape []) }
    ensures laid { IsLaid shapes.now (area_at areas.new slot) }
    ensures beside { IsBeside slot areas.old areas.new }
    ensures ok { OnOk result (objects_of shapes.now (area_at areas.new slot) ≡ objects_of shapes.now (area_at areas.old slot) ++ blank (slice_index_or shapes.now shape []) count ∷ []) }
    ensures err { OnErr result (area_at areas.new slot ≡ area_at areas.old slot) }
{
    areas[slot].push(shape, count, size, shapes, bank)
}

/// Writes a cell.
#[inline(always)]
pub(crate) fn write_cell<L: Ledger>(
    areas: &mut [Area<L>],
    slot: usize,
    place: Place,
    value: Cell,
    shapes: &Shapes,
)
    requires slot { slot < length areas.old }
    requires laid { IsLaid shapes.now (area_at areas.old slot) }
    requires object { place.pointer.object < length (area_at areas.old slot).heads }
    requires cell { HasCell (slice_index_or (objects_of shapes.now (area_at areas.old slot)) place.pointer.object no_object) place.pointer.index place.cell }
    requires suits { IsTrue (suits (slice_index_or (slice_index_or (objects_of shapes.now (area_at areas.old slot)) place.pointer.object no_object).kinds (cell_place (slice_index_or (objects_of shapes.now (area_at areas.old slot)) place.pointer.object no_object) place.pointer.index place.cell) NumberKind) (value_of value)) }
    ensures laid { IsLaid shapes.now (area_at areas.new slot) }
    ensures beside { IsBeside slot areas.old areas.new }
    ensures written { objects_of shapes.now (area_at areas.new slot) ≡ objects_with place.pointer.object place.pointer.index place.cell (value_of value) (objects_of shapes.now (area_at areas.old slot)) }
{
    let pointer = place.pointer;
    areas[slot].set(pointer.object, pointer.index, place.cell, value, shapes);
}

/// Writes a cell, and answers what it held.
#[inline(always)]
pub(crate) fn replace_cell<L: Ledger>(
    areas: &mut [Area<L>],
    slot: usize,
    place: Place,
    value: Cell,
    shapes: &Shapes,
    steps: &mut Steps<L>,
) -> Cell
    requires slot { slot < length areas.old }
    requires laid { IsLaid shapes.now (area_at areas.old slot) }
    requires object { place.pointer.object < length (area_at areas.old slot).heads }
    requires cell { HasCell (slice_index_or (objects_of shapes.now (area_at areas.old slot)) place.pointer.object no_object) place.pointer.index place.cell }
    requires suits { IsTrue (suits (slice_index_or (slice_index_or (objects_of shapes.now (area_at areas.old slot)) place.pointer.object no_object).kinds (cell_place (slice_index_or (objects_of shapes.now (area_at areas.old slot)) place.pointer.object no_object) place.pointer.index place.cell) NumberKind) (value_of value)) }
    ensures before { value_of result ≡ cell_value (slice_index_or (objects_of shapes.now (area_at areas.old slot)) place.pointer.object no_object) place.pointer.index place.cell }
    ensures laid { IsLaid shapes.now (area_at areas.new slot) }
    ensures beside { IsBeside slot areas.old areas.new }
    ensures written { objects_of shapes.now (area_at areas.new slot) ≡ objects_with place.pointer.object place.pointer.index place.cell (value_of value) (objects_of shapes.now (area_at areas.old slot)) }
    ensures step { steps.new ≡ steps.old + 1 }
{
    let pointer = place.pointer;
    areas[slot].replace(
        pointer.object,
        pointer.index,
        place.cell,
        value,
        shapes,
        steps,
    )
}

/// Lets the objects go.
pub(crate) fn clear<L: Ledger>(areas: &mut [Area<L>], slot: usize, bank: &mut Bank<L>)
    requires { slot < length areas.old }
    ensures empty { area_at areas.new slot ≡ no_area }
    ensures beside { IsBeside slot areas.old areas.new }
{
    areas[slot].clear(bank);
}

/// Lets the objects of all regions of a set go, all of them live.
pub(crate) fn clear_all<L: Ledger>(
    registry: &Registry,
    set: &[u32],
    areas: &mut [Area<L>],
    bank: &mut Bank<L>,
)
    requires live { All (IsMember registry.now.members) set.now }
    requires areas { length areas.old ≡ registry.now.slots }
    ensures { areas.new ≡ at_slots registry.now.members no_area set.now areas.old }
{
    for region in set {
        clear(areas, registry.slot(*region) as usize, bank);
    }
}
