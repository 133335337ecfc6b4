// An object.
ghost use Rattle.std.specs.Prelude.{◌≡◌, ◌+◌, ◌*◌, ◌≤◌, ◌<◌, ◌++◌, ◌↔◌, map, flat_map, replicate, length, count_by, IfOk, OnOk, IsTrue};
ghost use Rattle.rc_core.specs.Laid.{held_kind};
ghost use Rattle.rc_core.specs.Shapes.{kinds_in};
ghost use Rattle.rc_store.specs.Kept.{blank, object_refs};
ghost use Rattle.rc_store.specs.Stores.{HasCell, cell_place, cell_value, object_with};
ghost use Rattle.rc_store.specs.Values.{blank_of, value_of};
ghost use Rattle.rc_plain_objects.specs.Slots.{slot_kind, slot_refs, slot_value};

use crate::slot::Slot;
use rc_base::{NoMemory, Steps};
use rc_core::Kind;
use rc_core::layout::Layout;
use rc_store::{Cell, blank_of, is_counted, kinds_of};
use std::alloc::Global;
use std::marker::{Model, PhantomData};
use std::sync::ledger::Ledger;

/// An array of elements of one layout. The cells of an element lie together.
#[derive(Drop)]
pub struct Object<L: Ledger> {
    count: u32,
    size: usize,
    slots: Vec<Slot>,
    ledger: PhantomData<L>,
}

impl<L: Ledger> Model for Object<L> {
    ghost use Rattle.std.specs.Prelude.{◌≡◌, ◌*◌, map, length};
    ghost use Rattle.rc_store.specs.Kept.{KeptObject};
    ghost use Rattle.rc_plain_objects.specs.Slots.{slot_kind, slot_value};

    ghost Value = { KeptObject };

    ghost view = { λ o. record { size = o.size; count = o.count; kinds = map slot_kind o.slots.items; values = map slot_value o.slots.items } };

    ghost invariant = { λ o. length o.slots.items ≡ o.count * o.size };
}

/// Appends the cells of one element, zero or null.
fn push_element(slots: &mut Vec<Slot>, kinds: &[Kind]) -> Result<(), NoMemory>
    ensures kinds { OnOk result (map slot_kind slots.new.items ≡ map slot_kind slots.old.items ++ kinds.now) }
    ensures values { OnOk result (map slot_value slots.new.items ≡ map slot_value slots.old.items ++ map blank_of kinds.now) }
    ensures len { OnOk result (length slots.new.items ≡ length slots.old.items + length kinds.now) }
{
    for kind in kinds {
        let slot = Slot {
            kind: *kind,
            value: blank_of(*kind),
        };
        match slots.push(slot) {
            Ok(()) => {}
            Err(_) => return Err(NoMemory),
        }
    }
    Ok(())
}

/// The cells of so many elements, zero or null.
fn elements(alloc: Global, kinds: &[Kind], count: u32) -> Result<Vec<Slot>, NoMemory>
    ensures kinds { IfOk result (λ slots. map slot_kind slots.items ≡ flat_map (λ ks. ks) (replicate count kinds.now)) }
    ensures values { IfOk result (λ slots. map slot_value slots.items ≡ flat_map (map blank_of) (replicate count kinds.now)) }
    ensures len { IfOk result (λ slots. length slots.items ≡ count * length kinds.now) }
{
    let mut slots = Vec::new(alloc);
    for _ in 0..count {
        push_element(&mut slots, kinds)?;
    }
    Ok(slots)
}

/// Whether it is counted, and names the region.
fn slot_names(slot: Slot, region: u32) -> bool
    ensures { result ≡ slot_refs region slot }
{
    if !is_counted(slot.kind) {
        return false;
    }
    slot.value.names(region)
}

/// Whether a counted cell names the region. Each cell that is read is a step.
fn any_names<L: Ledger>(slots: &[Slot], region: u32, steps: &mut Steps<L>) -> bool
    ensures found { IsTrue result ↔ (0 < count_by (slot_refs region) slots.now) }
    ensures cost { steps.new ≤ steps.old + length slots.now }
    ensures never_falls { steps.old ≤ steps.new }
{
    for slot in slots {
        steps.tick();
        if slot_names(*slot, region) {
            return true;
        }
    }
    false
}

impl<L: Ledger> Object<L> {
    /// So many elements of this layout, all zero or null.
    pub fn blank(alloc: Global, layout: &Layout, count: u32) -> Result<Object<L>, NoMemory>
        ensures { IfOk result (λ o. o ≡ blank (map held_kind (kinds_in layout.now)) count) }
    {
        let kinds = kinds_of(alloc, layout)?;
        let slots = elements(alloc, &kinds, count)?;
        Ok(Object {
            count,
            size: kinds.len(),
            slots,
            ledger: PhantomData,
        })
    }

    pub fn count(&self) -> u32
        ensures { result ≡ self.now.count }
    {
        self.count
    }

    /// Where a cell stands among all.
    fn place(&self, index: u32, cell: u32) -> usize
        requires { HasCell self.now index cell }
        ensures place { result ≡ cell_place self.now index cell }
        ensures inside { result < length self.now.values }
    {
        index as usize * self.size + cell as usize
    }

    /// The value of a cell. Whoever reads it counts it on the ledger's counter, of which there is one.
    pub fn get(&self, index: u32, cell: u32, steps: &mut Steps<L>) -> Cell
        requires { HasCell self.now index cell }
        ensures value { value_of result ≡ cell_value self.now index cell }
        ensures step { steps.new ≡ steps.old + 1 }
    {
        steps.tick();
        self.slots[self.place(index, cell)].value
    }

    pub fn set(&mut self, index: u32, cell: u32, value: Cell)
        requires { HasCell self.old index cell }
        ensures { self.new ≡ object_with index cell (value_of value) self.old }
    {
        let place = self.place(index, cell);
        let slot = &mut self.slots[place];
        slot.value = value;
    }

    /// Whether a counted cell names the region. Each cell that is read is a step.
    pub fn names(&self, region: u32, steps: &mut Steps<L>) -> bool
        ensures found { IsTrue result ↔ (0 < object_refs region self.now) }
        ensures cost { steps.new ≤ steps.old + length self.now.values }
        ensures never_falls { steps.old ≤ steps.new }
    {
        any_names(&self.slots, region, steps)
    }
}
