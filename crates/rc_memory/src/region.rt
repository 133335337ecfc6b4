// Regions.

ghost use Rattle.std.specs.Prelude.{◌≡◌, ◌++◌, ◌∷◌, [], length, map, slice_get, option_map, true, false, OnOk, OnErr, IfErr, ◌&&◌, nat_eq};
ghost use Rattle.std.specs.List.{list_any};
ghost use Rattle.rc_base.specs.declared.ends.RunFault.TheVariants.{Memory};
ghost use Rattle.rc_core.specs.Heap.{update};
ghost use Rattle.rc_core.specs.Source.{overwritten};
ghost use Rattle.rc_values.specs.Objects.{KeptObject, object_names};
ghost use Rattle.rc_values.specs.Values.{value_of};
ghost use Rattle.rc_values.specs.declared.stop.Stop.TheVariants.{Cut};

use rc_values::{Object, Stop, Value};
use std::alloc::Global;
use std::marker::Model;

/// A region that was made. A deleted one has no objects.
#[derive(Drop)]
pub(crate) struct Region<'p> {
    parent: u32,
    alive: bool,
    objects: Vec<Object<'p>>,
}

impl<'p> Model for Region<'p> {
    ghost use Rattle.rc_memory.specs.Kept.{KeptRegion};

    ghost Value = { KeptRegion };

    ghost view = { λ r. record { parent = r.parent; alive = r.alive; objects = r.objects.items } };
}

/// Whether a cell of an object names the region.
fn any_names(region: u32, objects: &[Object]) -> bool
    ensures { result ≡ list_any (object_names region) objects.now }
{
    for object in objects {
        if object.names(region) {
            return true;
        }
    }
    false
}

#[tactic(auto, using(rc_values::proofs::Lists::update_set, rc_values::proofs::Lists::update_past))]
fn write_object(objects: &mut Vec<Object>, number: usize, place: u64, values: &[Value])
    ensures { objects.new.items ≡ update objects.old.items number (λ (o : KeptObject). record o { values = overwritten place (map value_of values.now) o.values }) }
{
    if number < objects.len() {
        objects[number].write(place, values);
    }
}

impl<'p> Region<'p> {
    /// A live region with these objects.
    pub(crate) fn new(parent: u32, objects: Vec<Object<'p>>) -> Region<'p>
        ensures { result ≡ record { parent = parent; alive = true; objects = objects.entry.items } }
    {
        Region {
            parent,
            alive: true,
            objects,
        }
    }

    pub(crate) fn parent(&self) -> u32
        ensures { result ≡ self.now.parent }
    {
        self.parent
    }

    pub(crate) fn is_alive(&self) -> bool
        ensures { result ≡ self.now.alive }
    {
        self.alive
    }

    /// Whether it is alive, and has this parent.
    pub(crate) fn is_child(&self, parent: u32) -> bool
        ensures { result ≡ (self.now.alive && nat_eq self.now.parent parent) }
    {
        if !self.alive {
            return false;
        }
        self.parent == parent
    }

    /// How many objects it has.
    pub(crate) fn len(&self) -> usize
        ensures { result ≡ length self.now.objects }
    {
        self.objects.len()
    }

    pub(crate) fn object(&self, number: u64) -> Option<&Object<'p>>
        ensures { option_map (λ o. o.now) result ≡ slice_get self.now.objects number }
    {
        self.objects.get(number as usize)
    }

    /// One more object.
    pub(crate) fn push(&mut self, object: Object<'p>) -> Result<(), Stop>
        ensures pushed { OnOk result (self.new ≡ record self.old { objects = self.old.objects ++ object.entry ∷ [] }) }
        ensures unchanged { OnErr result (self.new ≡ self.old) }
        ensures memory { IfErr result (λ stop. stop ≡ Cut Memory) }
    {
        self.objects.push(object)?;
        Ok(())
    }

    /// Changes the cells of an object from a place on to these values.
    pub(crate) fn write(&mut self, number: u64, place: u64, values: &[Value])
        ensures { self.new ≡ record self.old { objects = update self.old.objects number (λ (o : KeptObject). record o { values = overwritten place (map value_of values.now) o.values }) } }
    {
        write_object(&mut self.objects, number as usize, place, values);
    }

    /// It is dead from now on.
    pub(crate) fn kill(&mut self, alloc: Global)
        ensures { self.new ≡ record self.old { alive = false; objects = [] } }
    {
        self.alive = false;
        self.objects = Vec::new(alloc);
    }

    /// Whether a cell of an object names the region.
    pub(crate) fn names(&self, region: u32) -> bool
        ensures { result ≡ list_any (object_names region) self.now.objects }
    {
        any_names(region, self.objects.as_slice())
    }
}
