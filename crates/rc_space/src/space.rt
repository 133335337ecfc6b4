// The space of all regions.
ghost use Rattle.std.specs.Prelude.{◌≡◌, ◌≢◌, ◌<◌, ◌≤◌, ◌+◌, ◌*◌, ◌++◌, ◌∷◌, [], ℕ, Some, None, false, length, map, slice_index_or, slice_set, All, Contains, IfOk, OnOk, OnErr, IsTrue};
ghost use Rattle.std.specs.List.{list_any};
ghost use Rattle.rc_core.specs.declared.layouts.Kind.TheVariants.{Number as NumberKind};
ghost use Rattle.rc_core.specs.Heap.{is_above};
ghost use Rattle.rc_core.specs.Laid.{held_kind};
ghost use Rattle.rc_core.specs.Shapes.{kinds_in};
ghost use Rattle.rc_core.specs.Heap.{Number as NumberValue};
ghost use Rattle.rc_store.specs.Elements.{Finds, Loads, Stores, index_from, place_from};
ghost use Rattle.rc_store.specs.Kept.{blank};
ghost use Rattle.rc_store.specs.Sets.{has_child_outside, without};
ghost use Rattle.rc_store.specs.Stores.{cell_place, cell_value, cells_in, is_child, live_in, no_view, object_in, objects_in, objects_with, parent_in, region_at, with_objects};
ghost use Rattle.rc_store.specs.Values.{suits, value_of};
ghost use Rattle.rc_tally.specs.Tally.{held_refs, pin_refs, value_refs};
ghost use Rattle.rc_space.specs.Spaces.{HasSpot, IsWhole, count_of};

use crate::areas::{clear, clear_all, push_object, replace_cell, write_cell};
use rc_areas::{Area, Shapes};
use rc_base::{NoMemory, Steps};
use rc_core::layout::Layout;
use rc_pages::Bank;
use rc_registry::Registry;
use rc_store::{Cell, Missed, Place, Pointer, element_at};
use std::alloc::Global;
use std::marker::Model;
use std::sync::ledger::Ledger;

/// How many spare pages the bank keeps.
const BANK_PLACES: u32 = 1024;

/// The live regions with their objects, and a count for each. Contracts see the regions as a heap keeps
/// them, none for a dead one, and the counts.
#[derive(Drop)]
pub struct Space<L: Ledger> {
    alloc: Global,
    registry: Registry,
    /// By slot.
    areas: Vec<Area<L>>,
    /// By slot; between two calls none is set.
    marks: Vec<bool>,
    shapes: Shapes,
    bank: Bank<L>,
}

impl<L: Ledger> Model for Space<L> {
    ghost use Rattle.rc_space.specs.Spaces.{IsSoundSpace, SpaceState, regions_of};

    ghost Value = { SpaceState };

    ghost view = { λ s. record { regions = regions_of s.registry.members s.areas.items s.shapes; counts = s.registry.counts } };

    ghost invariant = { λ s. IsSoundSpace s.registry.members s.registry.slots s.areas.items s.shapes s.marks.items };
}

/// Room for the mark of one slot, which isn't set.
fn one_mark(alloc: Global) -> Result<Vec<bool>, NoMemory>
    ensures { IfOk result (λ marks. marks.items ≡ false ∷ []) }
{
    let mut marks = Vec::new(alloc);
    match marks.push(false) {
        Ok(()) => Ok(marks),
        Err(_) => Err(NoMemory),
    }
}

impl<L: Ledger> Space<L> {
    /// Region 0 alone, without an object and without a reference.
    ///
    /// # Errors
    ///
    /// Out of memory.
    pub fn new(alloc: Global) -> Result<Space<L>, NoMemory>
        ensures regions { IfOk result (λ space. space.regions ≡ Some no_view ∷ []) }
        ensures counts { IfOk result (λ space. (r : ℕ) → count_of space r ≡ 0) }
    {
        let registry = Registry::new(alloc)?;
        let bank = Bank::new(alloc, BANK_PLACES)?;
        let marks = one_mark(alloc)?;
        let mut areas = Vec::new(alloc);
        match areas.push(Area::new(alloc)) {
            Ok(()) => Ok(Space {
                alloc,
                registry,
                areas,
                marks,
                shapes: Shapes::new(alloc),
                bank,
            }),
            Err(_) => Err(NoMemory),
        }
    }

    /// How many regions were made.
    pub fn len(&self) -> usize
        ensures { result ≡ length self.now.regions }
    {
        self.registry.len()
    }

    #[inline(always)]
    pub fn is_live(&self, region: u32) -> bool
        ensures { result ≡ live_in self.now.regions region }
    {
        self.registry.is_live(region)
    }

    /// How many references to a region are counted.
    pub fn count(&self, region: u32) -> u64
        ensures { result ≡ count_of self.now region }
    {
        self.registry.count(region)
    }

    /// How many objects a live region has.
    #[inline(always)]
    pub fn objects(&self, region: u32) -> usize
        requires { IsTrue (live_in self.now.regions region) }
        ensures { result ≡ length (objects_in self.now.regions region) }
    {
        self.areas[self.registry.slot(region) as usize].len()
    }

    /// How many cells a live region has.
    pub fn cells(&self, region: u32) -> u64
        requires { IsTrue (live_in self.now.regions region) }
        ensures { result ≡ cells_in (region_at self.now.regions region) }
    {
        self.areas[self.registry.slot(region) as usize].size()
    }

    /// How many elements an object of a live region has.
    #[inline(always)]
    pub fn elements(&self, region: u32, object: u32) -> u32
        requires live { IsTrue (live_in self.now.regions region) }
        requires object { object < length (objects_in self.now.regions region) }
        ensures { result ≡ (object_in self.now.regions region object).count }
    {
        self.areas[self.registry.slot(region) as usize].count(object, &self.shapes)
    }

    /// The value of a cell. It suits the cell's kind.
    #[inline(always)]
    pub fn read(&self, place: Place, steps: &mut Steps<L>) -> Cell
        requires { HasSpot self.now.regions place }
        ensures value { value_of result ≡ cell_value (object_in self.now.regions place.pointer.region place.pointer.object) place.pointer.index place.cell }
        ensures whole { IsWhole (object_in self.now.regions place.pointer.region place.pointer.object) place.pointer.index place.cell }
        ensures step { steps.new ≡ steps.old + 1 }
    {
        let pointer = place.pointer;
        self.areas[self.registry.slot(pointer.region) as usize].get(
            pointer.object,
            pointer.index,
            place.cell,
            &self.shapes,
            steps,
        )
    }

    /// The value of a cell of the element that is so far from a pointer's.
    ///
    /// # Errors
    ///
    /// In this order: the region is dead, the object has no such element.
    #[inline(always)]
    pub fn load(
        &self,
        pointer: Pointer,
        shift: i64,
        cell: u32,
        steps: &mut Steps<L>,
    ) -> Result<Cell, Missed>
        requires object { IsTrue (live_in self.now.regions pointer.region) → pointer.object < length (objects_in self.now.regions pointer.region) }
        requires spot { Finds self.now.regions pointer shift → HasSpot self.now.regions (place_from pointer shift cell) }
        ensures loads { Loads self.now.regions pointer shift cell result }
        ensures never_falls { steps.old ≤ steps.new }
    {
        let Some(slot) = self.registry.slot_if_live(pointer.region) else {
            return Err(Missed::Dead);
        };
        let area = &self.areas[slot as usize];
        let elements = area.count(pointer.object, &self.shapes);
        let Some(index) = element_at(pointer.index, shift, elements) else {
            return Err(Missed::Outside);
        };
        Ok(area.get(pointer.object, index, cell, &self.shapes, steps))
    }

    /// Writes a number into a cell of the element that is so far from a pointer's. No count changes.
    ///
    /// # Errors
    ///
    /// In this order: the region is dead, the object has no such element. After an error nothing has
    /// changed.
    #[inline(always)]
    pub fn store_number(
        &mut self,
        pointer: Pointer,
        shift: i64,
        cell: u32,
        number: i64,
    ) -> Result<(), Missed>
        requires object { IsTrue (live_in self.old.regions pointer.region) → pointer.object < length (objects_in self.old.regions pointer.region) }
        requires spot { Finds self.old.regions pointer shift → HasSpot self.old.regions (place_from pointer shift cell) }
        requires suits { Finds self.old.regions pointer shift → IsTrue (suits (slice_index_or (object_in self.old.regions pointer.region pointer.object).kinds (cell_place (object_in self.old.regions pointer.region pointer.object) (index_from pointer shift) cell) NumberKind) (NumberValue number)) }
        ensures stores { Stores pointer shift cell (NumberValue number) self.old.regions self.new.regions result }
        ensures whole { OnOk result (IsWhole (object_in self.old.regions pointer.region pointer.object) (index_from pointer shift) cell) }
        ensures counts { self.new.counts ≡ self.old.counts }
    {
        let Some(slot) = self.registry.find_if_live(pointer.region) else {
            return Err(Missed::Dead);
        };
        let elements = self.areas[slot as usize].count(pointer.object, &self.shapes);
        let Some(index) = element_at(pointer.index, shift, elements) else {
            return Err(Missed::Outside);
        };
        let place = Place {
            pointer: Pointer {
                region: pointer.region,
                object: pointer.object,
                index,
            },
            cell,
        };
        let value = Cell::Number(number);
        write_cell(&mut self.areas, slot as usize, place, value, &self.shapes);
        Ok(())
    }

    /// Writes a cell. The value is one of those that the cell may hold. No count changes.
    #[inline(always)]
    pub fn write(&mut self, place: Place, value: Cell)
        requires spot { HasSpot self.old.regions place }
        requires suits { IsTrue (suits (slice_index_or (object_in self.old.regions place.pointer.region place.pointer.object).kinds (cell_place (object_in self.old.regions place.pointer.region place.pointer.object) place.pointer.index place.cell) NumberKind) (value_of value)) }
        ensures written { self.new.regions ≡ with_objects place.pointer.region (objects_with place.pointer.object place.pointer.index place.cell (value_of value) (objects_in self.old.regions place.pointer.region)) self.old.regions }
        ensures whole { IsWhole (object_in self.old.regions place.pointer.region place.pointer.object) place.pointer.index place.cell }
        ensures counts { self.new.counts ≡ self.old.counts }
    {
        let slot = self.registry.find(place.pointer.region) as usize;
        write_cell(&mut self.areas, slot, place, value, &self.shapes);
    }

    /// Writes a cell, and answers what it held, which suits the cell's kind. The value is one of those
    /// that the cell may hold. No count changes.
    #[inline(always)]
    pub fn replace(&mut self, place: Place, value: Cell, steps: &mut Steps<L>) -> Cell
        requires spot { HasSpot self.old.regions place }
        requires suits { IsTrue (suits (slice_index_or (object_in self.old.regions place.pointer.region place.pointer.object).kinds (cell_place (object_in self.old.regions place.pointer.region place.pointer.object) place.pointer.index place.cell) NumberKind) (value_of value)) }
        ensures before { value_of result ≡ cell_value (object_in self.old.regions place.pointer.region place.pointer.object) place.pointer.index place.cell }
        ensures written { self.new.regions ≡ with_objects place.pointer.region (objects_with place.pointer.object place.pointer.index place.cell (value_of value) (objects_in self.old.regions place.pointer.region)) self.old.regions }
        ensures whole { IsWhole (object_in self.old.regions place.pointer.region place.pointer.object) place.pointer.index place.cell }
        ensures counts { self.new.counts ≡ self.old.counts }
        ensures step { steps.new ≡ steps.old + 1 }
    {
        let slot = self.registry.find(place.pointer.region) as usize;
        replace_cell(&mut self.areas, slot, place, value, &self.shapes, steps)
    }

    /// Makes a child of a live region, without an object and without a reference.
    ///
    /// # Errors
    ///
    /// Out of memory: regions and counts are as before.
    pub fn add(&mut self, parent: u32) -> Result<(), NoMemory>
        requires live { IsTrue (live_in self.old.regions parent) }
        requires room { length self.old.regions ≤ 4294967295 }
        ensures ok { OnOk result (self.new.regions ≡ self.old.regions ++ Some (record { parent = parent; objects = [] }) ∷ []) }
        ensures err { OnErr result (self.new.regions ≡ self.old.regions) }
        ensures counts { (r : ℕ) → count_of self.new r ≡ count_of self.old r }
    {
        match self.areas.reserve(1) {
            Ok(()) => {}
            Err(_) => return Err(NoMemory),
        }
        match self.marks.reserve(1) {
            Ok(()) => {}
            Err(_) => return Err(NoMemory),
        }
        let slot = self.registry.add(parent)? as usize;
        if slot == self.areas.len() {
            self.areas.push(Area::new(self.alloc)).unwrap();
            self.marks.push(false).unwrap();
        }
        Ok(())
    }

    /// Appends an object of so many elements of a layout to a live region, all zero or null, with so
    /// many cells together.
    ///
    /// # Errors
    ///
    /// Out of memory: regions and counts are as before.
    pub fn push(
        &mut self,
        region: u32,
        layout: &Layout,
        count: u32,
        size: u64,
    ) -> Result<(), NoMemory>
        requires live { IsTrue (live_in self.old.regions region) }
        requires size { size ≡ count * length layout.now.cells.items }
        ensures ok { OnOk result (self.new.regions ≡ with_objects region (objects_in self.old.regions region ++ blank (map held_kind (kinds_in layout.now)) count ∷ []) self.old.regions) }
        ensures err { OnErr result (self.new.regions ≡ self.old.regions) }
        ensures counts { self.new.counts ≡ self.old.counts }
    {
        let shape = self.shapes.number(layout)?;
        let slot = self.registry.find(region) as usize;
        push_object(
            &mut self.areas,
            slot,
            shape,
            count,
            size,
            &self.shapes,
            &mut self.bank,
        )
    }

    /// Takes back what the cells of a live region count. Each cell that counts is read, which is a step.
    /// A region to which references are counted is live.
    pub fn take_back_region(&mut self, region: u32, steps: &mut Steps<L>)
        requires live { IsTrue (live_in self.old.regions region) }
        requires enough { (r : ℕ) → held_refs r region (objects_in self.old.regions region) ≤ count_of self.old r }
        ensures counts { (r : ℕ) → count_of self.new r + held_refs r region (objects_in self.old.regions region) ≡ count_of self.old r }
        ensures live { (r : ℕ) → 0 < count_of self.old r → IsTrue (live_in self.old.regions r) }
        ensures regions { self.new.regions ≡ self.old.regions }
        ensures cost { steps.new ≤ steps.old + cells_in (region_at self.old.regions region) }
        ensures never_falls { steps.old ≤ steps.new }
    {
        let area = &self.areas[self.registry.slot(region) as usize];
        self.registry
            .take_back_area(area, &self.shapes, region, steps);
    }

    /// Gives again what the cells of a live region count. Each cell that counts is read, which is a step.
    pub fn give_region(&mut self, region: u32, steps: &mut Steps<L>)
        requires region { IsTrue (live_in self.old.regions region) }
        requires live { (r : ℕ) → 0 < held_refs r region (objects_in self.old.regions region) → IsTrue (live_in self.old.regions r) }
        requires few { (r : ℕ) → count_of self.old r + held_refs r region (objects_in self.old.regions region) ≤ 18446744073709551615 }
        ensures counts { (r : ℕ) → count_of self.new r ≡ count_of self.old r + held_refs r region (objects_in self.old.regions region) }
        ensures regions { self.new.regions ≡ self.old.regions }
        ensures cost { steps.new ≤ steps.old + cells_in (region_at self.old.regions region) }
        ensures never_falls { steps.old ≤ steps.new }
    {
        let area = &self.areas[self.registry.slot(region) as usize];
        self.registry.give_area(area, &self.shapes, region, steps);
    }

    /// Takes a live region out that has no child and to which no reference is counted. Its pages go to
    /// the bank. It takes no memory.
    pub fn remove(&mut self, region: u32)
        requires live { IsTrue (live_in self.old.regions region) }
        requires not_root { region ≢ 0 }
        requires childless { list_any (is_child region) self.old.regions ≡ false }
        requires unnamed { count_of self.old region ≡ 0 }
        ensures regions { self.new.regions ≡ slice_set self.old.regions region None }
        ensures counts { (r : ℕ) → count_of self.new r ≡ count_of self.old r }
    {
        let slot = self.registry.slot(region) as usize;
        clear(&mut self.areas, slot, &mut self.bank);
        self.registry.remove(region);
    }

    /// Whether a live region, which isn't region 0, is the parent of one.
    pub fn has_child(&self, region: u32) -> bool
        requires live { IsTrue (live_in self.now.regions region) }
        requires not_root { region ≢ 0 }
        ensures { result ≡ list_any (is_child region) self.now.regions }
    {
        self.registry.has_child(region)
    }

    /// Whether a live region that isn't of a set has one of the set as its parent. It looks at the
    /// children of the set alone, and takes no memory.
    pub fn has_child_outside(&mut self, set: &[u32]) -> bool
        requires live { All (λ r. IsTrue (live_in self.old.regions r)) set.now }
        requires not_root { ¬ Contains set.now 0 }
        ensures child { result ≡ has_child_outside set.now self.old.regions }
        ensures same { self.new ≡ self.old }
    {
        rc_registry::has_child_outside(&self.registry, set, &mut self.marks)
    }

    /// Takes all regions of a set out, in whatever order they stand there. They are live, none is region
    /// 0, no child of theirs is outside, and no reference to one is counted. Their pages go to the bank.
    /// It takes no memory.
    pub fn remove_all(&mut self, set: &[u32])
        requires live { All (λ r. IsTrue (live_in self.old.regions r)) set.now }
        requires not_root { ¬ Contains set.now 0 }
        requires closed { has_child_outside set.now self.old.regions ≡ false }
        requires unnamed { All (λ r. count_of self.old r ≡ 0) set.now }
        ensures regions { self.new.regions ≡ without set.now self.old.regions }
        ensures counts { (r : ℕ) → count_of self.new r ≡ count_of self.old r }
    {
        clear_all(&self.registry, set, &mut self.areas, &mut self.bank);
        rc_registry::remove_all(&mut self.registry, set, &mut self.marks);
    }

    /// Whether live region a is b, or above b's parent. The links that it follows up the tree are
    /// steps.
    pub fn is_above(&self, a: u32, b: u32, steps: &mut Steps<L>) -> bool
        requires a { IsTrue (live_in self.now.regions a) }
        requires b { IsTrue (live_in self.now.regions b) }
        ensures above { result ≡ is_above (parent_in self.now.regions) a b }
        ensures never_falls { steps.old ≤ steps.new }
    {
        self.registry.is_above(a, b, steps)
    }

    /// One reference more to the region that a value names, if it isn't the holder's.
    pub fn give(&mut self, holder: u32, value: Cell)
        requires live { (r : ℕ) → 0 < value_refs r holder (value_of value) → IsTrue (live_in self.old.regions r) }
        requires few { (r : ℕ) → count_of self.old r + value_refs r holder (value_of value) ≤ 18446744073709551615 }
        ensures counts { (r : ℕ) → count_of self.new r ≡ count_of self.old r + value_refs r holder (value_of value) }
        ensures regions { self.new.regions ≡ self.old.regions }
    {
        self.registry.give(holder, value);
    }

    /// One reference less to the region that a value names, if it isn't the holder's.
    pub fn take_back(&mut self, holder: u32, value: Cell)
        requires { (r : ℕ) → value_refs r holder (value_of value) ≤ count_of self.old r }
        ensures counts { (r : ℕ) → count_of self.new r + value_refs r holder (value_of value) ≡ count_of self.old r }
        ensures regions { self.new.regions ≡ self.old.regions }
    {
        self.registry.take_back(holder, value);
    }

    /// One reference more to the region that a pinned value names.
    pub fn pin(&mut self, value: Cell)
        requires live { (r : ℕ) → 0 < pin_refs r (value_of value) → IsTrue (live_in self.old.regions r) }
        requires few { (r : ℕ) → count_of self.old r + pin_refs r (value_of value) ≤ 18446744073709551615 }
        ensures counts { (r : ℕ) → count_of self.new r ≡ count_of self.old r + pin_refs r (value_of value) }
        ensures regions { self.new.regions ≡ self.old.regions }
    {
        self.registry.pin(value);
    }

    /// One reference less to the region that a pinned value names.
    pub fn unpin(&mut self, value: Cell)
        requires { (r : ℕ) → pin_refs r (value_of value) ≤ count_of self.old r }
        ensures counts { (r : ℕ) → count_of self.new r + pin_refs r (value_of value) ≡ count_of self.old r }
        ensures regions { self.new.regions ≡ self.old.regions }
    {
        self.registry.unpin(value);
    }
}
