// The trait of heaps.
ghost use Rattle.std.specs.Prelude.{◌≡◌, ◌≢◌, ◌↔◌, ◌+◌, ◌<◌, ◌≤◌, ◌++◌, ◌∷◌, [], ℕ, length, map, true, false, IfOk, OnOk, OnErr, IsErrOf, IsTrue, Contains, IsPermutation};

use crate::cell::{Cell, Denied, MakeFault, Missed, Place, Pointer};
use crate::elements::element_at;
use rc_base::{Limits, NoMemory, Steps};
use rc_core::layout::Layout;
use rc_core::ty::Note;
use std::sync::ledger::Ledger;

/// What a heap keeps: the live regions with their objects, and the values that are pinned. Of a dead
/// region nothing is kept, and no number is used again.
pub trait Heap: Drop {
    ghost use Rattle.rc_core.specs.Heap.{fits};
    ghost use Rattle.rc_core.specs.Laid.{held_kind};
    ghost use Rattle.rc_core.specs.Shapes.{kinds_in};
    ghost use Rattle.rc_store.specs.Kept.{KeptStore, refs};
    ghost use Rattle.rc_core.specs.Heap.{Number};
    ghost use Rattle.rc_store.specs.Elements.{Finds, Loads, Stores, place_from};
    ghost use Rattle.rc_store.specs.Values.{note_of, value_of};
    ghost use Rattle.rc_store.specs.Stores.{HasObject, HasPlace, IsFresh, IsLive, IsNew, MayStand, allocated, deleted, has_child, kind_at, limited, live_in, made, object_in, objects_in, parent_in, kept_value, written};
    ghost use Rattle.rc_store.specs.Whole.{IsWhole};
    ghost use Rattle.rc_store.specs.declared.cell.MakeFault.TheVariants.{Full};
    ghost use Rattle.rc_core.specs.declared.ty.Note.TheVariants.{Plain};
    ghost use Rattle.rc_store.specs.declared.cell.Denied.TheVariants.{Root, Subregion, Reference};

    /// What it means.
    ghost store: { Self → KeptStore };

    /// How many cells a deletion of this region reads at most.
    ghost most_reads: { Self → ℕ → ℕ };

    /// The ledger of the one counter by which its cells are read.
    type Counter: Ledger;

    /// What is kept at every moment: region 0 lives, and so does the older parent of each live region; each
    /// cell holds a value of its kind that names no dead region and fits the annotation, and no pin names
    /// a dead region. So what is read may be written back. It does nothing.
    fn stays_whole(&self)
        ensures { IsWhole (store self.now) };

    /// Makes a child of a live region, and answers its number: regions count from 1 in the order in
    /// which they are made.
    ///
    /// # Errors
    ///
    /// `Full` where as many were made as the limit says. After an error nothing has changed.
    fn new_region(&mut self, parent: u32) -> Result<u32, MakeFault>
        requires { IsLive (store self.old) parent }
        ensures number { IfOk result (λ r. r ≡ length (store self.old).regions) }
        ensures ok { OnOk result (store self.new ≡ made parent (store self.old)) }
        ensures full { IsErrOf result Full ↔ ((store self.old).region_limit < length (store self.old).regions) }
        ensures err { OnErr result (store self.new ≡ store self.old) };

    /// Appends an object of n elements of this layout to region 0, all zero or null, and answers its
    /// number, before any region is made. No limit counts here.
    ///
    /// # Errors
    ///
    /// Out of memory: nothing has changed.
    fn add_global(&mut self, kind: &Layout, n: u32) -> Result<u32, NoMemory>
        requires first { length (store self.old).regions ≡ 1 }
        requires few { length (objects_in (store self.old).regions 0) < 4294967295 }
        ensures number { IfOk result (λ o. o ≡ length (objects_in (store self.old).regions 0)) }
        ensures ok { OnOk result (store self.new ≡ allocated 0 (map held_kind (kinds_in kind.now)) n (store self.old)) }
        ensures err { OnErr result (store self.new ≡ store self.old) };

    /// Appends an object of n elements of this layout to a live region, all zero or null, and answers
    /// its number.
    ///
    /// # Errors
    ///
    /// `Full` where the region has as many objects as the limit says. After an error nothing has changed.
    fn allocate(&mut self, region: u32, kind: &Layout, n: u32) -> Result<u32, MakeFault>
        requires live { IsLive (store self.old) region }
        requires count { n < 2147483648 }
        ensures number { IfOk result (λ o. o ≡ length (objects_in (store self.old).regions region)) }
        ensures ok { OnOk result (store self.new ≡ allocated region (map held_kind (kinds_in kind.now)) n (store self.old)) }
        ensures full { IsErrOf result Full ↔ ((store self.old).block_limit ≤ length (objects_in (store self.old).regions region)) }
        ensures err { OnErr result (store self.new ≡ store self.old) };

    /// Whether a region is live.
    fn is_live(&self, region: u32) -> bool
        ensures { result ≡ live_in (store self.now).regions region };

    /// How many elements an object of a live region has.
    fn elements(&self, region: u32, object: u32) -> u32
        requires live { IsLive (store self.now) region }
        requires object { HasObject (store self.now) region object }
        ensures { result ≡ (object_in (store self.now).regions region object).count };

    /// The value of a cell.
    fn read(&self, place: Place, steps: &mut Steps<Self::Counter>) -> Cell
        requires { HasPlace (store self.now) place }
        ensures value { value_of result ≡ kept_value (store self.now) place }
        ensures never_falls { steps.old ≤ steps.new };

    /// The value of a cell of the element that is so far from a pointer's.
    ///
    /// # Errors
    ///
    /// In this order: the region is dead, the object has no such element.
    fn load(
        &self,
        pointer: Pointer,
        shift: i64,
        cell: u32,
        steps: &mut Steps<Self::Counter>,
    ) -> Result<Cell, Missed>
        requires object { IsLive (store self.now) pointer.region → HasObject (store self.now) pointer.region pointer.object }
        requires place { Finds (store self.now).regions pointer shift → HasPlace (store self.now) (place_from pointer shift cell) }
        ensures loads { Loads (store self.now).regions pointer shift cell result }
        ensures never_falls { steps.old ≤ steps.new }
    {
        if !self.is_live(pointer.region) {
            return Err(Missed::Dead);
        }
        let elements = self.elements(pointer.region, pointer.object);
        let Some(index) = element_at(pointer.index, shift, elements) else {
            return Err(Missed::Outside);
        };
        let place = Place {
            pointer: Pointer {
                region: pointer.region,
                object: pointer.object,
                index,
            },
            cell,
        };
        Ok(self.read(place, steps))
    }

    /// Writes a counted cell, or one that holds a number.
    fn write_counted(&mut self, place: Place, value: Cell, steps: &mut Steps<Self::Counter>)
        requires may { MayStand (store self.old) place (value_of value) }
        requires plain { note_of (kind_at (store self.old) place) ≡ Plain }
        ensures written { store self.new ≡ written place (value_of value) (store self.old) }
        ensures never_falls { steps.old ≤ steps.new };

    /// Writes a number into a cell of the element that is so far from a pointer's.
    ///
    /// # Errors
    ///
    /// In this order: the region is dead, the object has no such element. After an error nothing has
    /// changed.
    fn store_number(
        &mut self,
        pointer: Pointer,
        shift: i64,
        cell: u32,
        number: i64,
        steps: &mut Steps<Self::Counter>,
    ) -> Result<(), Missed>
        requires object { IsLive (store self.old) pointer.region → HasObject (store self.old) pointer.region pointer.object }
        requires may { Finds (store self.old).regions pointer shift → MayStand (store self.old) (place_from pointer shift cell) (Number number) }
        requires plain { Finds (store self.old).regions pointer shift → note_of (kind_at (store self.old) (place_from pointer shift cell)) ≡ Plain }
        ensures stores { Stores pointer shift cell (Number number) (store self.old).regions (store self.new).regions result }
        ensures same { store self.new ≡ record (store self.old) { regions = (store self.new).regions } }
        ensures never_falls { steps.old ≤ steps.new }
    {
        if !self.is_live(pointer.region) {
            return Err(Missed::Dead);
        }
        let elements = self.elements(pointer.region, pointer.object);
        let Some(index) = element_at(pointer.index, shift, elements) else {
            return Err(Missed::Outside);
        };
        let place = Place {
            pointer: Pointer {
                region: pointer.region,
                object: pointer.object,
                index,
            },
            cell,
        };
        self.write_counted(place, Cell::Number(number), steps);
        Ok(())
    }

    /// Writes a cell whose annotation the value fits.
    fn write_kept(&mut self, place: Place, value: Cell)
        requires may { MayStand (store self.old) place (value_of value) }
        requires noted { note_of (kind_at (store self.old) place) ≢ Plain }
        requires fits { IsTrue (fits (parent_in (store self.old).regions) (note_of (kind_at (store self.old) place)) place.pointer.region (value_of value)) }
        ensures { store self.new ≡ written place (value_of value) (store self.old) };

    /// Whether the value fits an annotation, in an object of the holder's region.
    fn fits(&self, note: Note, holder: u32, value: Cell, steps: &mut Steps<Self::Counter>) -> bool
        requires holder { IsLive (store self.now) holder }
        requires fresh { IsFresh (store self.now) (value_of value) }
        ensures fits { result ≡ fits (parent_in (store self.now).regions) note holder (value_of value) }
        ensures never_falls { steps.old ≤ steps.new };

    /// Makes room for so many more pins.
    ///
    /// # Errors
    ///
    /// Out of memory. Nothing has changed, but there may be more room.
    fn reserve_pins(&mut self, n: u32) -> Result<(), NoMemory>
        ensures ok { OnOk result (n ≤ (store self.new).spare) }
        ensures more { (store self.old).spare ≤ (store self.new).spare }
        ensures same { store self.new ≡ record (store self.old) { spare = (store self.new).spare } };

    /// Pins a value that names no dead region.
    fn pin(&mut self, value: Cell)
        requires spare { 0 < (store self.old).spare }
        requires fresh { IsFresh (store self.old) (value_of value) }
        ensures spare { (store self.new).spare + 1 ≡ (store self.old).spare }
        ensures pins { store self.new ≡ record (store self.old) { pins = (store self.old).pins ++ value_of value ∷ []; spare = (store self.new).spare } };

    /// Takes one pin of this value away.
    fn unpin(&mut self, value: Cell)
        requires { Contains (store self.old).pins (value_of value) }
        ensures pins { IsPermutation (store self.old).pins (value_of value ∷ (store self.new).pins) }
        ensures same { store self.new ≡ record (store self.old) { pins = (store self.new).pins; spare = (store self.old).spare + 1 } };

    /// Deletes a live region. It takes no memory.
    ///
    /// # Errors
    ///
    /// For region 0, else where it has a live child, else where a counted cell of another live region
    /// or a pin names it. After an error nothing has changed.
    fn delete(&mut self, region: u32, steps: &mut Steps<Self::Counter>) -> Result<(), Denied>
        requires { IsLive (store self.old) region }
        ensures ok { OnOk result (store self.new ≡ deleted region (store self.old)) }
        ensures err { OnErr result (store self.new ≡ store self.old) }
        ensures root { IsErrOf result Root ↔ (region ≡ 0) }
        ensures subregion { IsErrOf result Subregion ↔ ((region ≢ 0) × IsTrue (has_child (store self.old) region)) }
        ensures reference { IsErrOf result Reference ↔ ((region ≢ 0) × (has_child (store self.old) region ≡ false) × (0 < refs (store self.old) region)) }
        ensures cost { steps.new ≤ steps.old + most_reads self.old region }
        ensures never_falls { steps.old ≤ steps.new };

    /// Sets how many regions may be made, and how many objects a region may have, before anything is
    /// made.
    fn limit(&mut self, limits: &Limits)
        requires { IsNew (store self.old) }
        ensures { store self.new ≡ limited limits.now (store self.old) };
}
