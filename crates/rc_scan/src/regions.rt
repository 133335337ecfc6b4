// The live regions.
ghost use Rattle.std.specs.Prelude.{◌≡◌, ◌<◌, ◌++◌, ◌∷◌, [], length, map, Some, None, IfOk, OnOk, OnErr, IsTrue, All, slice_set};
ghost use Rattle.rc_core.specs.Laid.{held_kind};
ghost use Rattle.rc_core.specs.Shapes.{kinds_in};
ghost use Rattle.rc_store.specs.Kept.{KeptStore, blank};
ghost use Rattle.rc_store.specs.Sets.{deleted_all};
ghost use Rattle.rc_store.specs.Stores.{HasCell, live_in, no_view, object_in, objects_in, objects_with, with_objects};
ghost use Rattle.rc_store.specs.Values.{value_of};

use crate::region::Region;
use crate::together::clear_all;
use rc_base::NoMemory;
use rc_core::layout::Layout;
use rc_store::{Cell, Place};
use std::alloc::Global;
use std::marker::Model;
use std::sync::ledger::Ledger;

/// The regions that were made, by number; none where one is dead. Contracts see the parent and the
/// objects of each.
#[derive(Drop)]
pub(crate) struct Regions<L: Ledger> {
    slots: Vec<Option<Region<L>>>,
}

impl<L: Ledger> Model for Regions<L> {
    ghost use Rattle.std.specs.Prelude.{List, Option};
    ghost use Rattle.rc_store.specs.Kept.{KeptView};

    ghost Value = { List (Option KeptView) };

    ghost view = { λ r. r.slots.items };
}

fn write_cell<L: Ledger>(regions: &mut [Option<Region<L>>], place: Place, value: Cell)
    requires object { place.pointer.object < length (objects_in regions.old place.pointer.region) }
    requires cell { HasCell (object_in regions.old place.pointer.region place.pointer.object) place.pointer.index place.cell }
    ensures { regions.new ≡ with_objects place.pointer.region (objects_with place.pointer.object place.pointer.index place.cell (value_of value) (objects_in regions.old place.pointer.region)) regions.old }
{
    let pointer = place.pointer;
    match &mut regions[pointer.region as usize] {
        None => unreachable!(),
        Some(region) => region.set(pointer.object, pointer.index, place.cell, value),
    }
}

/// Appends an object of n elements, all zero or null.
fn push_object<L: Ledger>(
    alloc: Global,
    regions: &mut [Option<Region<L>>],
    number: u32,
    layout: &Layout,
    n: u32,
) -> Result<(), NoMemory>
    requires { IsTrue (live_in regions.old number) }
    ensures ok { OnOk result (regions.new ≡ with_objects number (objects_in regions.old number ++ blank (map held_kind (kinds_in layout.now)) n ∷ []) regions.old) }
    ensures err { OnErr result (regions.new ≡ regions.old) }
{
    match &mut regions[number as usize] {
        None => unreachable!(),
        Some(region) => region.push(alloc, layout, n),
    }
}

impl<L: Ledger> Regions<L> {
    /// Region 0 alone, without objects.
    pub(crate) fn new(alloc: Global) -> Result<Regions<L>, NoMemory>
        ensures { IfOk result (λ regions. regions ≡ Some no_view ∷ []) }
    {
        let mut slots = Vec::new(alloc);
        match slots.push(Some(Region::new(alloc, 0))) {
            Ok(()) => Ok(Regions { slots }),
            Err(_) => Err(NoMemory),
        }
    }

    /// All of them.
    pub(crate) fn slots(&self) -> &[Option<Region<L>>]
        ensures { result.now ≡ self.now }
    {
        &self.slots
    }

    /// Makes a child of a region.
    pub(crate) fn add(&mut self, alloc: Global, parent: u32) -> Result<(), NoMemory>
        ensures ok { OnOk result (self.new ≡ self.old ++ Some (record { parent = parent; objects = [] }) ∷ []) }
        ensures err { OnErr result (self.new ≡ self.old) }
    {
        match self.slots.push(Some(Region::new(alloc, parent))) {
            Ok(()) => Ok(()),
            Err(_) => Err(NoMemory),
        }
    }

    /// Writes a cell.
    pub(crate) fn write(&mut self, place: Place, value: Cell)
        requires object { place.pointer.object < length (objects_in self.old place.pointer.region) }
        requires cell { HasCell (object_in self.old place.pointer.region place.pointer.object) place.pointer.index place.cell }
        ensures { self.new ≡ with_objects place.pointer.region (objects_with place.pointer.object place.pointer.index place.cell (value_of value) (objects_in self.old place.pointer.region)) self.old }
    {
        write_cell(&mut self.slots, place, value);
    }

    /// Appends an object of n elements to a live region, all zero or null.
    pub(crate) fn push_object(
        &mut self,
        alloc: Global,
        region: u32,
        layout: &Layout,
        n: u32,
    ) -> Result<(), NoMemory>
        requires { IsTrue (live_in self.old region) }
        ensures ok { OnOk result (self.new ≡ with_objects region (objects_in self.old region ++ blank (map held_kind (kinds_in layout.now)) n ∷ []) self.old) }
        ensures err { OnErr result (self.new ≡ self.old) }
    {
        push_object(alloc, &mut self.slots, region, layout, n)
    }

    /// Lets a region go.
    pub(crate) fn let_go(&mut self, region: u32)
        requires { region < length self.old }
        ensures { self.new ≡ slice_set self.old region None }
    {
        self.slots[region as usize] = None;
    }

    /// Lets the regions of a set go.
    pub(crate) fn let_all_go(&mut self, set: &[u32])
        requires { All (λ r. r < length self.old) set.now }
        ensures { (s : KeptStore) → s.regions ≡ self.old → deleted_all set.now s ≡ record s { regions = self.new } }
    {
        clear_all(&mut self.slots, set);
    }
}
