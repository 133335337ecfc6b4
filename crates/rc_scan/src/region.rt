// A live region.
ghost use Rattle.std.specs.Prelude.{◌≡◌, ◌+◌, ◌≤◌, ◌<◌, ◌++◌, ◌∷◌, ◌↔◌, [], length, map, sum_by, OnOk, OnErr, IsTrue, nat_eq, slice_index_or};
ghost use Rattle.rc_core.specs.Laid.{held_kind};
ghost use Rattle.rc_core.specs.Shapes.{kinds_in};
ghost use Rattle.rc_store.specs.Kept.{blank, object_refs, view_refs};
ghost use Rattle.rc_store.specs.Stores.{HasCell, cell_value, cells_in, no_object, objects_with, size_of};
ghost use Rattle.rc_store.specs.Values.{value_of};

use rc_base::{NoMemory, Steps};
use rc_core::layout::Layout;
use rc_plain_objects::Object;
use rc_store::Cell;
use std::alloc::Global;
use std::marker::Model;
use std::sync::ledger::Ledger;

/// Its parent and its objects.
#[derive(Drop)]
pub(crate) struct Region<L: Ledger> {
    parent: u32,
    objects: Vec<Object<L>>,
}

impl<L: Ledger> Model for Region<L> {
    ghost use Rattle.rc_store.specs.Kept.{KeptView};

    ghost Value = { KeptView };

    ghost view = { λ r. record { parent = r.parent; objects = r.objects.items } };
}

/// Whether a counted cell of an object names the region. Each cell that is read is a step.
fn any_names<L: Ledger>(objects: &[Object<L>], region: u32, steps: &mut Steps<L>) -> bool
    ensures found { IsTrue result ↔ (0 < sum_by (object_refs region) objects.now) }
    ensures cost { steps.new ≤ steps.old + sum_by size_of objects.now }
    ensures never_falls { steps.old ≤ steps.new }
{
    for object in objects {
        if object.names(region, steps) {
            return true;
        }
    }
    false
}

fn set_cell<L: Ledger>(objects: &mut [Object<L>], object: usize, index: u32, cell: u32, value: Cell)
    requires object { object < length objects.old }
    requires cell { HasCell (slice_index_or objects.old object no_object) index cell }
    ensures { objects.new ≡ objects_with object index cell (value_of value) objects.old }
{
    objects[object].set(index, cell, value);
}

impl<L: Ledger> Region<L> {
    /// A region without an object.
    pub(crate) fn new(alloc: Global, parent: u32) -> Region<L>
        ensures { result ≡ record { parent = parent; objects = [] } }
    {
        Region {
            parent,
            objects: Vec::new(alloc),
        }
    }

    pub(crate) fn parent(&self) -> u32
        ensures { result ≡ self.now.parent }
    {
        self.parent
    }

    pub(crate) fn is_child_of(&self, region: u32) -> bool
        ensures { result ≡ nat_eq self.now.parent region }
    {
        self.parent == region
    }

    /// How many objects it has.
    pub(crate) fn len(&self) -> usize
        ensures { result ≡ length self.now.objects }
    {
        self.objects.len()
    }

    /// How many elements an object has.
    pub(crate) fn elements(&self, object: u32) -> u32
        requires { object < length self.now.objects }
        ensures { result ≡ (slice_index_or self.now.objects object no_object).count }
    {
        self.objects[object as usize].count()
    }

    /// Appends an object of so many elements, all zero or null.
    pub(crate) fn push(
        &mut self,
        alloc: Global,
        layout: &Layout,
        count: u32,
    ) -> Result<(), NoMemory>
        ensures ok { OnOk result (self.new ≡ record self.old { objects = self.old.objects ++ blank (map held_kind (kinds_in layout.now)) count ∷ [] }) }
        ensures err { OnErr result (self.new ≡ self.old) }
    {
        let object = Object::blank(alloc, layout, count)?;
        match self.objects.push(object) {
            Ok(()) => Ok(()),
            Err(_) => Err(NoMemory),
        }
    }

    /// The value of a cell, whose reading is a step.
    pub(crate) fn get(&self, object: u32, index: u32, cell: u32, steps: &mut Steps<L>) -> Cell
        requires object { object < length self.now.objects }
        requires cell { HasCell (slice_index_or self.now.objects object no_object) index cell }
        ensures value { value_of result ≡ cell_value (slice_index_or self.now.objects object no_object) index cell }
        ensures step { steps.new ≡ steps.old + 1 }
    {
        self.objects[object as usize].get(index, cell, steps)
    }

    pub(crate) fn set(&mut self, object: u32, index: u32, cell: u32, value: Cell)
        requires object { object < length self.old.objects }
        requires cell { HasCell (slice_index_or self.old.objects object no_object) index cell }
        ensures { self.new ≡ record self.old { objects = objects_with object index cell (value_of value) self.old.objects } }
    {
        set_cell(&mut self.objects, object as usize, index, cell, value);
    }

    /// Whether a counted cell names the region. Each cell that is read is a step.
    pub(crate) fn names(&self, region: u32, steps: &mut Steps<L>) -> bool
        ensures found { IsTrue result ↔ (0 < sum_by (object_refs region) self.now.objects) }
        ensures cost { steps.new ≤ steps.old + sum_by size_of self.now.objects }
        ensures never_falls { steps.old ≤ steps.new }
    {
        any_names(&self.objects, region, steps)
    }
}

/// Whether a counted cell of a region, if it is live, names this one. Each cell that is read is a step.
pub(crate) fn slot_names<L: Ledger>(
    slot: &Option<Region<L>>,
    region: u32,
    steps: &mut Steps<L>,
) -> bool
    ensures found { IsTrue result ↔ (0 < view_refs region slot.now) }
    ensures cost { steps.new ≤ steps.old + cells_in slot.now }
    ensures never_falls { steps.old ≤ steps.new }
{
    match slot {
        Some(other) => other.names(region, steps),
        None => false,
    }
}
