// A heap that looks at all cells.
ghost use Rattle.std.specs.Prelude.{◌≡◌, ◌+◌, ◌<◌, ◌≤◌, ◌↔◌, [], ◌∷◌, ◌++◌, length, map, Some, None, IfOk, OnOk, OnErr, IsTrue, sum_by, slice_set, slice_index_or, option_map};
ghost use Rattle.std.specs.List.{list_any};
ghost use Rattle.rc_core.specs.Heap.{Handle, fits, is_above};
ghost use Rattle.rc_core.specs.Laid.{held_kind};
ghost use Rattle.rc_core.specs.Shapes.{kinds_in};
ghost use Rattle.rc_store.specs.Kept.{blank, view_refs};
ghost use Rattle.rc_store.specs.Stores.{HasCell, cell_value, cells_in, is_child, live_in, no_view, object_in, objects_in, objects_with, parent_in, region_at, with_objects};
ghost use Rattle.rc_store.specs.Values.{value_of};

use crate::region::{Region, slot_names};
use crate::regions::Regions;
use crate::together::{any_beside_names, has_child_outside};
use rc_base::{Limits, NoMemory, Steps};
use rc_core::layout::Layout;
use rc_core::ty::Note;
use rc_store::{Cell, Denied, Heap, MakeFault, Pins, Place, SetHeap};
use std::alloc::Global;
use std::marker::Model;
use std::sync::ledger::Ledger;

/// A heap that keeps no counts: a deletion looks at the cells of all live regions. It is plain, so
/// that others can be compared with it.
#[derive(Drop)]
pub struct ScanHeap<L: Ledger> {
    alloc: Global,
    regions: Regions<L>,
    pins: Pins,
    region_limit: u32,
    block_limit: u32,
}

impl<L: Ledger> Model for ScanHeap<L> {
    ghost use Rattle.rc_store.specs.Kept.{KeptStore};
    ghost use Rattle.rc_store.specs.Whole.{IsWhole};

    ghost Value = { KeptStore };

    ghost view = { λ h. record { regions = h.regions; pins = h.pins.pins; spare = h.pins.spare; region_limit = h.region_limit; block_limit = h.block_limit } };

    ghost invariant = { λ h. IsWhole (record { regions = h.regions; pins = h.pins.pins; spare = h.pins.spare; region_limit = h.region_limit; block_limit = h.block_limit }) };
}

/// The region with this number, where it is live.
fn region_at<L: Ledger>(regions: &[Option<Region<L>>], number: u32) -> Option<&Region<L>>
    ensures { option_map (λ r. r.now) result ≡ region_at regions.now number }
{
    match regions.get(number as usize) {
        None => None,
        Some(slot) => match slot {
            None => None,
            Some(region) => Some(region),
        },
    }
}

fn is_live<L: Ledger>(regions: &[Option<Region<L>>], number: u32) -> bool
    ensures { result ≡ live_in regions.now number }
{
    match region_at(regions, number) {
        None => false,
        Some(_region) => true,
    }
}

fn parent<L: Ledger>(regions: &[Option<Region<L>>], number: u32) -> u32
    ensures { result ≡ parent_in regions.now number }
{
    match region_at(regions, number) {
        None => 0,
        Some(region) => region.parent(),
    }
}

/// How many objects a region has.
fn object_count<L: Ledger>(regions: &[Option<Region<L>>], number: u32) -> usize
    ensures { result ≡ length (objects_in regions.now number) }
{
    match region_at(regions, number) {
        None => 0,
        Some(region) => region.len(),
    }
}

/// How many elements an object has.
fn elements<L: Ledger>(regions: &[Option<Region<L>>], number: u32, object: u32) -> u32
    requires { object < length (objects_in regions.now number) }
    ensures { result ≡ (object_in regions.now number object).count }
{
    match region_at(regions, number) {
        None => unreachable!(),
        Some(region) => region.elements(object),
    }
}

/// Reads a cell, which is a step.
fn read_cell<L: Ledger>(regions: &[Option<Region<L>>], place: Place, steps: &mut Steps<L>) -> Cell
    requires object { place.pointer.object < length (objects_in regions.now place.pointer.region) }
    requires cell { HasCell (object_in regions.now place.pointer.region place.pointer.object) place.pointer.index place.cell }
    ensures value { value_of result ≡ cell_value (object_in regions.now place.pointer.region place.pointer.object) place.pointer.index place.cell }
    ensures step { steps.new ≡ steps.old + 1 }
{
    match region_at(regions, place.pointer.region) {
        None => unreachable!(),
        Some(region) => { region.get(place.pointer.object, place.pointer.index, place.cell, steps) }
    }
}

/// Whether region a is b, or above b's parent. A parent has the smaller number.
fn is_above<L: Ledger>(regions: &[Option<Region<L>>], a: u32, b: u32) -> bool
    ensures { result ≡ is_above (parent_in regions.now) a b }
{
    let mut at = b;
    for _ in 0..b {
        if at == a {
            return true;
        }
        if at == 0 {
            return false;
        }
        at = parent(regions, at);
    }
    at == a
}

/// Whether a region may be named in a cell with the annotation, in an object of the holder's region.
fn suits<L: Ledger>(regions: &[Option<Region<L>>], note: Note, holder: u32, region: u32) -> bool
    ensures { result ≡ fits (parent_in regions.now) note holder (Handle region) }
{
    match note {
        Note::Plain => true,
        Note::SameRegion => region == holder,
        Note::ParentPtr => is_above(regions, region, holder),
        Note::Traditional => region == 0,
    }
}

/// Whether a value may stand in a cell with the annotation, in an object of the holder's region.
fn fits<L: Ledger>(regions: &[Option<Region<L>>], note: Note, holder: u32, value: Cell) -> bool
    ensures { result ≡ fits (parent_in regions.now) note holder (value_of value) }
{
    match value {
        Cell::Number(_) => true,
        Cell::Nothing => true,
        Cell::Region(region) => suits(regions, note, holder, region),
        Cell::Pointer(pointer) => suits(regions, note, holder, pointer.region),
    }
}

/// Whether a live region has this one as its parent.
fn any_child<L: Ledger>(regions: &[Option<Region<L>>], region: u32) -> bool
    ensures { result ≡ list_any (is_child region) regions.now }
{
    for child in regions {
        if let Some(child) = child {
            if child.is_child_of(region) {
                return true;
            }
        }
    }
    false
}

/// Whether a counted cell of the region i, if it is live and another one, names this one. Each cell that
/// is read is a step.
fn other_names<L: Ledger>(
    regions: &[Option<Region<L>>],
    i: usize,
    region: u32,
    steps: &mut Steps<L>,
) -> bool
    requires { i < length regions.now }
    ensures found { IsTrue result ↔ (0 < view_refs region (slice_index_or (slice_set regions.now region None) i None)) }
    ensures cost { steps.new ≤ steps.old + cells_in (slice_index_or regions.now i None) }
    ensures never_falls { steps.old ≤ steps.new }
{
    if i == region as usize {
        return false;
    }
    slot_names(&regions[i], region, steps)
}

/// Whether a counted cell of another live region names this one. Each cell that is read is a step.
fn any_other_names<L: Ledger>(
    regions: &[Option<Region<L>>],
    region: u32,
    steps: &mut Steps<L>,
) -> bool
    ensures found { IsTrue result ↔ (0 < sum_by (view_refs region) (slice_set regions.now region None)) }
    ensures cost { steps.new ≤ steps.old + sum_by cells_in regions.now }
    ensures never_falls { steps.old ≤ steps.new }
{
    for i in 0..regions.len() {
        if other_names(regions, i, region, steps) {
            return true;
        }
    }
    false
}

impl<L: Ledger> ScanHeap<L> {
    ghost use Rattle.rc_store.specs.Kept.{refs};
    ghost use Rattle.rc_store.specs.Sets.{refs_to, set_refs};

    /// Region 0 alone, without objects, and nothing pinned. Both limits are 0.
    ///
    /// # Errors
    ///
    /// Out of memory.
    pub fn new(alloc: Global) -> Result<ScanHeap<L>, NoMemory>
        ensures { IfOk result (λ heap. ⟦<ScanHeap<L> as Heap>⟧.store heap ≡ record { regions = Some no_view ∷ []; pins = []; spare = 0; region_limit = 0; block_limit = 0 }) }
    {
        Ok(ScanHeap {
            alloc,
            regions: Regions::new(alloc)?,
            pins: Pins::new(alloc),
            region_limit: 0,
            block_limit: 0,
        })
    }

    /// Whether a counted cell of another live region, or a pin, names this one.
    fn is_named(&self, region: u32, steps: &mut Steps<L>) -> bool
        ensures found { IsTrue result ↔ (0 < refs (self.now) region) }
        ensures cost { steps.new ≤ steps.old + sum_by cells_in self.now.regions }
        ensures never_falls { steps.old ≤ steps.new }
    {
        if any_other_names(self.regions.slots(), region, steps) {
            return true;
        }
        self.pins.name(region)
    }

    /// Whether a counted cell of a live region that isn't of the set, or a pin, names this one.
    fn is_named_beside(&self, set: &[u32], member: u32, steps: &mut Steps<L>) -> bool
        ensures found { IsTrue result ↔ (0 < refs_to (self.now) set.now member) }
        ensures cost { steps.new ≤ steps.old + sum_by cells_in self.now.regions }
        ensures never_falls { steps.old ≤ steps.new }
    {
        if any_beside_names(self.regions.slots(), set, member, steps) {
            return true;
        }
        self.pins.name(member)
    }

    /// Whether a counted cell of a live region that isn't of the set, or a pin, names one of the set.
    fn is_set_named(&self, set: &[u32], steps: &mut Steps<L>) -> bool
        ensures found { IsTrue result ↔ (0 < set_refs (self.now) set.now) }
        ensures cost { steps.new ≤ steps.old + sum_by (⟦<ScanHeap<L> as Heap>⟧.most_reads self.now) set.now }
        ensures never_falls { steps.old ≤ steps.new }
    {
        for member in set {
            if self.is_named_beside(set, *member, steps) {
                return true;
            }
        }
        false
    }
}

impl<L: Ledger> Heap for ScanHeap<L> {
    ghost use Rattle.std.specs.Prelude.{sum_by};
    ghost use Rattle.rc_store.specs.Stores.{cells_in};

    ghost store = { λ h. h };

    ghost most_reads = { λ h r. sum_by cells_in h.regions };

    type Counter = L;

    fn stays_whole(&self) {
        // Where a field is read, what holds of the value is known.
        let _limit = self.block_limit;
    }

    fn new_region(&mut self, parent: u32) -> Result<u32, MakeFault> {
        let number = self.regions.slots().len();
        if number > self.region_limit as usize {
            return Err(MakeFault::Full);
        }
        match self.regions.add(self.alloc, parent) {
            Ok(()) => Ok(number as u32),
            Err(NoMemory) => Err(MakeFault::Memory),
        }
    }

    fn add_global(&mut self, kind: &Layout, n: u32) -> Result<u32, NoMemory> {
        let number = object_count(self.regions.slots(), 0);
        self.regions.push_object(self.alloc, 0, kind, n)?;
        Ok(number as u32)
    }

    fn allocate(&mut self, region: u32, kind: &Layout, n: u32) -> Result<u32, MakeFault> {
        let number = object_count(self.regions.slots(), region);
        if number >= self.block_limit as usize {
            return Err(MakeFault::Full);
        }
        match self.regions.push_object(self.alloc, region, kind, n) {
            Ok(()) => Ok(number as u32),
            Err(NoMemory) => Err(MakeFault::Memory),
        }
    }

    fn is_live(&self, region: u32) -> bool {
        is_live(self.regions.slots(), region)
    }

    fn elements(&self, region: u32, object: u32) -> u32 {
        elements(self.regions.slots(), region, object)
    }

    fn read(&self, place: Place, steps: &mut Steps<L>) -> Cell {
        read_cell(self.regions.slots(), place, steps)
    }

    fn write_counted(&mut self, place: Place, value: Cell, _steps: &mut Steps<L>) {
        self.regions.write(place, value);
    }

    fn write_kept(&mut self, place: Place, value: Cell) {
        self.regions.write(place, value);
    }

    fn fits(&self, note: Note, holder: u32, value: Cell, _steps: &mut Steps<L>) -> bool {
        fits(self.regions.slots(), note, holder, value)
    }

    fn reserve_pins(&mut self, n: u32) -> Result<(), NoMemory> {
        self.pins.reserve(n)
    }

    fn pin(&mut self, value: Cell) {
        self.pins.pin(value);
    }

    fn unpin(&mut self, value: Cell) {
        self.pins.unpin(value);
    }

    fn delete(&mut self, region: u32, steps: &mut Steps<L>) -> Result<(), Denied> {
        if region == 0 {
            return Err(Denied::Root);
        }
        if any_child(self.regions.slots(), region) {
            return Err(Denied::Subregion);
        }
        if self.is_named(region, steps) {
            return Err(Denied::Reference);
        }
        self.regions.let_go(region);
        Ok(())
    }

    fn limit(&mut self, limits: &Limits) {
        self.region_limit = limits.regions;
        self.block_limit = limits.blocks;
    }
}

impl<L: Ledger> SetHeap for ScanHeap<L> {
    /// Deletes live regions, each of which stands there once: all of them or none. It takes no memory.
    /// For each of them it reads at most all cells, each once.
    ///
    /// # Errors
    ///
    /// Where region 0 is among them, else where a live region that isn't has a member as its parent,
    /// else where a counted cell of such a region, or a pin, names a member. After an error nothing has
    /// changed.
    fn delete_set(&mut self, set: &[u32], steps: &mut Steps<L>) -> Result<(), Denied> {
        if set.contains(&0) {
            return Err(Denied::Root);
        }
        if has_child_outside(self.regions.slots(), set) {
            return Err(Denied::Subregion);
        }
        if self.is_set_named(set, steps) {
            return Err(Denied::Reference);
        }
        self.regions.let_all_go(set);
        Ok(())
    }
}
