// The values that are pinned.
ghost use Rattle.std.specs.Prelude.{◌≡◌, ◌+◌, ◌≤◌, ◌<◌, ◌++◌, ◌∷◌, ◌↔◌, [], map, length, count_by, OnOk, IsTrue, Contains, IsPermutation, slice_index_or};
ghost use Rattle.rc_core.specs.Heap.{names};
ghost use Rattle.rc_store.specs.Values.{cell_refs, value_of};

use crate::cell::Cell;
use rc_base::NoMemory;
use std::alloc::Global;
use std::marker::Model;

/// Values in any order, and how many more have room.
#[derive(Drop)]
pub struct Pins {
    cells: Vec<Cell>,
    spare: u64,
}

impl Model for Pins {
    ghost use Rattle.std.specs.Prelude.{◌≤◌, ◌+◌, map, length, vec_capacity};
    ghost use Rattle.rc_store.specs.Stores.{PinsState};
    ghost use Rattle.rc_store.specs.Values.{value_of};

    ghost Value = { PinsState };

    ghost view = { λ p. record { pins = map value_of p.cells.items; spare = p.spare } };

    ghost invariant = { λ p. length p.cells.items + p.spare ≤ vec_capacity p.cells };
}

/// Whether a value names the region.
fn any_names(cells: &[Cell], region: u32) -> bool
    ensures { IsTrue result ↔ (0 < count_by (cell_refs region) cells.now) }
{
    for cell in cells {
        if cell.names(region) {
            return true;
        }
    }
    false
}

/// Where a value stands: the last place, since what was pinned last is taken away first.
fn place_of(cells: &[Cell], value: Cell) -> usize
    requires { Contains (map value_of cells.now) (value_of value) }
    ensures below { result < length cells.now }
    ensures is { value_of (slice_index_or cells.now result value) ≡ value_of value }
{
    for at in (0..cells.len()).rev() {
        if cells[at].is(value) {
            return at;
        }
    }
    unreachable!()
}

impl Pins {
    /// No value, and no room.
    pub fn new(alloc: Global) -> Pins
        ensures { result ≡ record { pins = []; spare = 0 } }
    {
        Pins {
            cells: Vec::new(alloc),
            spare: 0,
        }
    }

    /// How many there are.
    pub fn len(&self) -> u64
        ensures { result ≡ length self.now.pins }
    {
        self.cells.len() as u64
    }

    /// How many more have room.
    pub fn spare(&self) -> u64
        ensures { result ≡ self.now.spare }
    {
        self.spare
    }

    /// Makes room for so many more.
    ///
    /// # Errors
    ///
    /// Out of memory. The values are as before, but there may be more room.
    pub fn reserve(&mut self, n: u32) -> Result<(), NoMemory>
        ensures ok { OnOk result (n ≤ self.new.spare) }
        ensures more { self.old.spare ≤ self.new.spare }
        ensures most { self.new.spare ≤ self.old.spare + n }
        ensures pins { self.new.pins ≡ self.old.pins }
    {
        if n as u64 <= self.spare {
            return Ok(());
        }
        match self.cells.reserve(n as usize) {
            Ok(()) => {
                self.spare = n as u64;
                Ok(())
            }
            Err(_) => Err(NoMemory),
        }
    }

    /// Puts a value behind the others. There is room for it.
    pub fn pin(&mut self, value: Cell)
        requires { 0 < self.old.spare }
        ensures spare { self.new.spare + 1 ≡ self.old.spare }
        ensures pins { self.new.pins ≡ self.old.pins ++ value_of value ∷ [] }
    {
        self.cells.push(value).unwrap();
        self.spare -= 1;
    }

    /// Takes one equal value away.
    pub fn unpin(&mut self, value: Cell)
        requires { Contains self.old.pins (value_of value) }
        ensures pins { IsPermutation self.old.pins (value_of value ∷ self.new.pins) }
        ensures spare { self.new.spare ≡ self.old.spare + 1 }
    {
        let at = place_of(&self.cells, value);
        let _ = self.cells.swap_remove(at);
        self.spare += 1;
    }

    /// Whether one of them names the region.
    pub fn name(&self, region: u32) -> bool
        ensures { IsTrue result ↔ (0 < count_by (names region) self.now.pins) }
    {
        any_names(&self.cells, region)
    }
}
