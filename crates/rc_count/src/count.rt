// A heap that counts.
ghost use Rattle.std.specs.Prelude.{◌≡◌, ◌≢◌, ◌<◌, ◌≤◌, ◌+◌, ◌*◌, ◌++◌, ◌∷◌, [], ℕ, Some, false, length, map, IfOk, OnOk, OnErr, IsErrOf, IsTrue, ◌↔◌};
ghost use Rattle.rc_core.specs.Heap.{Handle, fits};
ghost use Rattle.rc_core.specs.Laid.{held_kind};
ghost use Rattle.rc_core.specs.Shapes.{kinds_in};
ghost use Rattle.rc_store.specs.Kept.{refs};
ghost use Rattle.rc_store.specs.declared.cell.Denied.TheVariants.{Reference, Root, Subregion};
ghost use Rattle.rc_store.specs.Stores.{IsLive, MayStand, all_cells, allocated, cells_in, deleted, has_child, kind_at, live_in, no_view, objects_in, parent_in, region_at, written};
ghost use Rattle.rc_store.specs.Values.{note_of, value_of};
ghost use Rattle.rc_core.specs.declared.ty.Note.TheVariants.{Plain};

use crate::together::{cells_of, give_all, has_root, is_named, take_back_all};
use rc_base::{Limits, NoMemory, Steps};
use rc_core::layout::Layout;
use rc_core::ty::Note;
use rc_space::Space;
use rc_store::{Cell, Denied, Heap, MakeFault, Missed, Pins, Place, Pointer, SetHeap};
use std::alloc::Global;
use std::marker::Model;
use std::sync::ledger::Ledger;

/// A heap that keeps a count for each live region: how many counted cells of other live regions, and
/// how many pins, name it. Of a dead region nothing is kept.
#[derive(Drop)]
pub struct CountHeap<L: Ledger> {
    space: Space<L>,
    pins: Pins,
    /// How many cells all live regions have.
    cells: u64,
    region_limit: u32,
    block_limit: u32,
}

impl<L: Ledger> Model for CountHeap<L> {
    ghost use Rattle.rc_store.specs.Kept.{KeptStore};
    ghost use Rattle.rc_count.specs.Counted.{IsCounted};

    ghost Value = { KeptStore };

    ghost view = { λ h. record { regions = h.space.regions; pins = h.pins.pins; spare = h.pins.spare; region_limit = h.region_limit; block_limit = h.block_limit } };

    ghost invariant = { λ h. IsCounted h.space (record { regions = h.space.regions; pins = h.pins.pins; spare = h.pins.spare; region_limit = h.region_limit; block_limit = h.block_limit }) h.cells };
}

/// Whether a region may be named in a cell with the annotation, in an object of the holder's region.
fn suits<L: Ledger>(
    space: &Space<L>,
    note: Note,
    holder: u32,
    region: u32,
    steps: &mut Steps<L>,
) -> bool
    requires holder { IsTrue (live_in space.now.regions holder) }
    requires region { IsTrue (live_in space.now.regions region) }
    ensures fits { result ≡ fits (parent_in space.now.regions) note holder (Handle region) }
    ensures never_falls { steps.old ≤ steps.new }
{
    match note {
        Note::Plain => true,
        Note::SameRegion => region == holder,
        Note::ParentPtr => space.is_above(region, holder, steps),
        Note::Traditional => region == 0,
    }
}

/// How many cells so many elements have. Mostly it is one element.
fn size_of(count: u32, width: usize) -> Result<u64, NoMemory>
    ensures { IfOk result (λ size. size ≡ count * width) }
{
    if count == 1 {
        return Ok(width as u64);
    }
    match (count as u64).checked_mul(width as u64) {
        Some(size) => Ok(size),
        None => Err(NoMemory),
    }
}

impl<L: Ledger> CountHeap<L> {
    /// Region 0 alone, without objects, and nothing pinned. Both limits are 0.
    ///
    /// # Errors
    ///
    /// Out of memory.
    pub fn new(alloc: Global) -> Result<CountHeap<L>, NoMemory>
        ensures { IfOk result (λ heap. ⟦<CountHeap<L> as Heap>⟧.store heap ≡ record { regions = Some no_view ∷ []; pins = []; spare = 0; region_limit = 0; block_limit = 0 }) }
    {
        Ok(CountHeap {
            space: Space::new(alloc)?,
            pins: Pins::new(alloc),
            cells: 0,
            region_limit: 0,
            block_limit: 0,
        })
    }

    /// How many cells there are with so many more. With the pins and their room they stay below 2^64,
    /// so that no count passes it.
    fn with_cells(&self, more: u64) -> Result<u64, NoMemory>
        ensures total { IfOk result (λ total. total ≡ all_cells self.now + more) }
        ensures few { IfOk result (λ total. total + length self.now.pins + self.now.spare ≤ 18446744073709551615) }
    {
        let Some(total) = self.cells.checked_add(more) else {
            return Err(NoMemory);
        };
        let Some(pinned) = total.checked_add(self.pins.len()) else {
            return Err(NoMemory);
        };
        match pinned.checked_add(self.pins.spare()) {
            Some(_sum) => Ok(total),
            None => Err(NoMemory),
        }
    }

    /// Appends an object to a live region that has so many, and answers its number.
    #[inline(never)]
    fn append(
        &mut self,
        region: u32,
        number: usize,
        kind: &Layout,
        count: u32,
    ) -> Result<u32, NoMemory>
        requires live { IsLive self.old region }
        requires number { number ≡ length (objects_in self.old.regions region) }
        requires few { length (objects_in self.old.regions region) < 4294967296 }
        ensures number { IfOk result (λ o. o ≡ length (objects_in self.old.regions region)) }
        ensures ok { OnOk result (self.new ≡ allocated region (map held_kind (kinds_in kind.now)) count self.old) }
        ensures err { OnErr result (self.new ≡ self.old) }
    {
        let size = size_of(count, kind.cells.len())?;
        let cells = self.with_cells(size)?;
        self.space.push(region, kind, count, size)?;
        self.cells = cells;
        Ok(number as u32)
    }

    /// Writes a counted cell, or one that holds a number. What the old value counts is taken back, and
    /// what the new one counts is given. It goes into its caller, so that place and value needn't pass through
    /// memory.
    #[inline(always)]
    fn write_reference(&mut self, place: Place, value: Cell, steps: &mut Steps<L>)
        requires may { MayStand self.old place (value_of value) }
        requires plain { note_of (kind_at self.old place) ≡ Plain }
        ensures written { self.new ≡ written place (value_of value) self.old }
        ensures never_falls { steps.old ≤ steps.new }
    {
        let holder = place.pointer.region;
        let old = self.space.replace(place, value, steps);
        self.space.take_back(holder, old);
        self.space.give(holder, value);
    }

    /// Lets a region go that isn't region 0, has no child and isn't named.
    fn let_go(&mut self, region: u32, steps: &mut Steps<L>)
        requires live { IsLive self.old region }
        requires not_root { region ≢ 0 }
        requires childless { has_child self.old region ≡ false }
        requires unnamed { refs self.old region ≡ 0 }
        ensures deleted { self.new ≡ deleted region self.old }
        ensures cost { steps.new ≤ steps.old + cells_in (region_at self.old.regions region) }
        ensures never_falls { steps.old ≤ steps.new }
    {
        self.space.take_back_region(region, steps);
        self.cells -= self.space.cells(region);
        self.space.remove(region);
    }
}

impl<L: Ledger> Heap for CountHeap<L> {
    ghost use Rattle.rc_store.specs.Stores.{cells_in, region_at};

    ghost store = { λ h. h };

    ghost most_reads = { λ h r. cells_in (region_at h.regions r) };

    type Counter = L;

    #[inline(always)]
    fn stays_whole(&self) {
        // Where a field is read, what holds of the value is known.
        let _limit = self.block_limit;
    }

    fn new_region(&mut self, parent: u32) -> Result<u32, MakeFault> {
        let number = self.space.len();
        if number > self.region_limit as usize {
            return Err(MakeFault::Full);
        }
        match self.space.add(parent) {
            Ok(()) => Ok(number as u32),
            Err(NoMemory) => Err(MakeFault::Memory),
        }
    }

    fn add_global(&mut self, kind: &Layout, n: u32) -> Result<u32, NoMemory> {
        let number = self.space.objects(0);
        self.append(0, number, kind, n)
    }

    #[inline(always)]
    fn allocate(&mut self, region: u32, kind: &Layout, n: u32) -> Result<u32, MakeFault> {
        let number = self.space.objects(region);
        if number >= self.block_limit as usize {
            return Err(MakeFault::Full);
        }
        match self.append(region, number, kind, n) {
            Ok(number) => Ok(number),
            Err(NoMemory) => Err(MakeFault::Memory),
        }
    }

    #[inline(always)]
    fn is_live(&self, region: u32) -> bool {
        self.space.is_live(region)
    }

    #[inline(always)]
    fn elements(&self, region: u32, object: u32) -> u32 {
        self.space.elements(region, object)
    }

    #[inline(always)]
    fn read(&self, place: Place, steps: &mut Steps<L>) -> Cell {
        self.space.read(place, steps)
    }

    #[inline(always)]
    fn load(
        &self,
        pointer: Pointer,
        shift: i64,
        cell: u32,
        steps: &mut Steps<L>,
    ) -> Result<Cell, Missed> {
        self.space.load(pointer, shift, cell, steps)
    }

    #[inline(always)]
    fn write_counted(&mut self, place: Place, value: Cell, steps: &mut Steps<L>) {
        match value {
            Cell::Number(_number) => self.space.write(place, value),
            _ => self.write_reference(place, value, steps),
        }
    }

    #[inline(always)]
    fn store_number(
        &mut self,
        pointer: Pointer,
        shift: i64,
        cell: u32,
        number: i64,
        _steps: &mut Steps<L>,
    ) -> Result<(), Missed> {
        self.space.store_number(pointer, shift, cell, number)
    }

    #[inline(always)]
    fn write_kept(&mut self, place: Place, value: Cell) {
        self.space.write(place, value);
    }

    fn fits(&self, note: Note, holder: u32, value: Cell, steps: &mut Steps<L>) -> bool {
        match value {
            Cell::Number(_) => true,
            Cell::Nothing => true,
            Cell::Region(region) => suits(&self.space, note, holder, region, steps),
            Cell::Pointer(pointer) => suits(&self.space, note, holder, pointer.region, steps),
        }
    }

    fn reserve_pins(&mut self, n: u32) -> Result<(), NoMemory> {
        self.with_cells(n as u64)?;
        self.pins.reserve(n)
    }

    fn pin(&mut self, value: Cell) {
        self.pins.pin(value);
        self.space.pin(value);
    }

    fn unpin(&mut self, value: Cell) {
        self.pins.unpin(value);
        self.space.unpin(value);
    }

    /// Deletes a live region. It reads the cells of this region alone, each at most once, and none
    /// where it refuses. It takes no memory.
    ///
    /// # Errors
    ///
    /// For region 0, else where it has a live child, else where a counted cell of another live region
    /// or a pin names it. After an error nothing has changed.
    fn delete(&mut self, region: u32, steps: &mut Steps<L>) -> Result<(), Denied>
        requires { IsLive self.old region }
        ensures ok { OnOk result (self.new ≡ deleted region self.old) }
        ensures err { OnErr result (self.new ≡ self.old) }
        ensures root { IsErrOf result Root ↔ (region ≡ 0) }
        ensures subregion { IsErrOf result Subregion ↔ ((region ≢ 0) × IsTrue (has_child self.old region)) }
        ensures reference { IsErrOf result Reference ↔ ((region ≢ 0) × (has_child self.old region ≡ false) × (0 < refs self.old region)) }
        ensures cost { steps.new ≤ steps.old + cells_in (region_at self.old.regions region) }
        ensures quiet { OnErr result (steps.new ≡ steps.old) }
        ensures never_falls { steps.old ≤ steps.new }
    {
        if region == 0 {
            return Err(Denied::Root);
        }
        if self.space.has_child(region) {
            return Err(Denied::Subregion);
        }
        if self.space.count(region) > 0 {
            return Err(Denied::Reference);
        }
        self.let_go(region, steps);
        Ok(())
    }

    fn limit(&mut self, limits: &Limits) {
        self.region_limit = limits.regions;
        self.block_limit = limits.blocks;
    }
}

impl<L: Ledger> SetHeap for CountHeap<L> {
    /// Deletes live regions, each of which stands there once: all of them or none. It reads the cells of
    /// these regions alone, each at most twice, and looks at their children. It takes no memory.
    ///
    /// # Errors
    ///
    /// Where region 0 is among them, else where a live region that isn't has a member as its parent,
    /// else where a counted cell of such a region, or a pin, names a member. After an error nothing has
    /// changed.
    fn delete_set(&mut self, set: &[u32], steps: &mut Steps<L>) -> Result<(), Denied> {
        if has_root(set) {
            return Err(Denied::Root);
        }
        if self.space.has_child_outside(set) {
            return Err(Denied::Subregion);
        }
        take_back_all(&mut self.space, set, steps);
        if is_named(&self.space, set) {
            give_all(&mut self.space, set, steps);
            return Err(Denied::Reference);
        }
        self.cells -= cells_of(&self.space, set);
        self.space.remove_all(set);
        Ok(())
    }
}
