// What a heap doesn't tell of its regions.
ghost use Rattle.std.specs.Prelude.{◌≡◌, ◌<◌, ◌++◌, ◌∷◌, [], ℕ, map, length, slice_index, slice_set, IfOk, OnOk};
ghost use Rattle.rc_core.specs.Laid.{held_kind};
ghost use Rattle.rc_core.specs.Shapes.{kinds_in};
ghost use Rattle.rc_core.specs.declared.layouts.Kind.TheVariants.{Region as RegionKind};

use rc_base::NoMemory;
use rc_core::layout::{CellKind, Layout};
use std::alloc::Global;
use std::marker::Model;

/// How many objects each region has, and how often it is pinned, by the regions' numbers. A heap tells
/// neither. And the layout of the elements of all objects: one cell, which holds a region.
#[derive(Drop)]
pub(crate) struct Records {
    objects: Vec<u64>,
    pins: Vec<u64>,
    row: Layout,
}

impl Model for Records {
    ghost use Rattle.std.specs.Prelude.{◌≡◌, ◌∷◌, [], map};
    ghost use Rattle.rc_core.specs.Laid.{held_kind};
    ghost use Rattle.rc_core.specs.Shapes.{kinds_in};
    ghost use Rattle.rc_core.specs.declared.layouts.Kind.TheVariants.{Region as RegionKind};
    ghost use Rattle.rc_sets.specs.Records.{RecordsState};

    ghost Value = { RecordsState };

    ghost view = { λ t. record { objects = t.objects.items; pins = t.pins.items } };

    ghost invariant = { λ t. map held_kind (kinds_in t.row) ≡ RegionKind ∷ [] };
}

impl Records {
    /// Those of region 0 alone, without objects and pins.
    pub(crate) fn new(alloc: Global) -> Result<Records, NoMemory>
        ensures { IfOk result (λ t. t ≡ record { objects = 0 ∷ []; pins = 0 ∷ [] }) }
    {
        let mut objects = Vec::new(alloc);
        objects.push(0)?;
        let mut pins = Vec::new(alloc);
        pins.push(0)?;
        let mut cells = Vec::new(alloc);
        cells.push(CellKind::Region)?;
        Ok(Records {
            objects,
            pins,
            row: Layout { cells },
        })
    }

    /// The layout of an element.
    pub(crate) fn row(&self) -> &Layout
        ensures { map held_kind (kinds_in result.now) ≡ RegionKind ∷ [] }
    {
        &self.row
    }

    /// One more region.
    pub(crate) fn add_region(&mut self) -> Result<(), NoMemory>
        ensures { OnOk result (self.new ≡ record { objects = self.old.objects ++ 0 ∷ []; pins = self.old.pins ++ 0 ∷ [] }) }
    {
        self.objects.push(0)?;
        self.pins.push(0)?;
        Ok(())
    }

    pub(crate) fn objects(&self, region: u32) -> u64
        requires { region < length self.now.objects }
        ensures { result ≡ slice_index self.now.objects region }
    {
        self.objects[region as usize]
    }

    pub(crate) fn set_objects(&mut self, region: u32, count: u64)
        requires { region < length self.old.objects }
        ensures { self.new ≡ record self.old { objects = slice_set self.old.objects region count } }
    {
        self.objects[region as usize] = count;
    }

    pub(crate) fn pins(&self, region: u32) -> u64
        requires { region < length self.now.pins }
        ensures { result ≡ slice_index self.now.pins region }
    {
        self.pins[region as usize]
    }

    pub(crate) fn set_pins(&mut self, region: u32, count: u64)
        requires { region < length self.old.pins }
        ensures { self.new ≡ record self.old { pins = slice_set self.old.pins region count } }
    {
        self.pins[region as usize] = count;
    }
}
