// The objects of a region.
ghost use Rattle.std.specs.Prelude.{◌≡◌, ◌<◌, ◌+◌, ◌*◌, ◌≤◌, ◌++◌, ◌∷◌, [], length, IsTrue, IfOk, OnOk, OnErr, slice_index, slice_index_or, vec_capacity};
ghost use Rattle.rc_core.specs.declared.layouts.Kind.TheVariants.{Number as NumberKind};
ghost use Rattle.rc_store.specs.Kept.{blank};
ghost use Rattle.rc_store.specs.Stores.{HasCell, cell_place, cell_value, no_object, objects_with};
ghost use Rattle.rc_store.specs.Values.{suits, value_of};
ghost use Rattle.rc_areas.specs.Areas.{IsLaid, IsPlace, objects_of};

use crate::head::Head;
use crate::shapes::{Shapes, kind_at};
use rc_base::{NoMemory, Steps};
use rc_cells::{decode, encode};
use rc_pages::{Bank, Pages};
use rc_store::Cell;
use std::alloc::Global;
use std::marker::Model;
use std::sync::ledger::Ledger;

/// The objects of a region, in the order in which they were made. Contracts see what is kept of each
/// and the codes of all cells; with the shapes, `specs/Areas.antt` says which objects these are.
#[derive(Drop)]
pub struct Area<L: Ledger> {
    heads: Vec<Head>,
    cells: Pages<L>,
}

impl<L: Ledger> Model for Area<L> {
    ghost use Rattle.std.specs.Prelude.{◌≤◌, length};
    ghost use Rattle.rc_areas.specs.Areas.{AreaState};

    ghost Value = { AreaState };

    ghost view = { λ a. record { heads = a.heads.items; codes = a.cells } };

    ghost invariant = { λ a. length a.cells ≤ 18446744073709551615 };
}

/// Makes room for one more head: for the first by itself, since many a region has one object alone, and
/// then for as many as there are.
#[inline(always)]
fn reserve_head(heads: &mut Vec<Head>) -> Result<(), NoMemory>
    ensures heads { heads.new.items ≡ heads.old.items }
    ensures room { OnOk result (length heads.new.items < vec_capacity heads.new) }
{
    if heads.is_empty() {
        heads.reserve_exact(1)?;
        return Ok(());
    }
    heads.reserve(1)?;
    Ok(())
}

impl<L: Ledger> Area<L> {
    /// No object. It takes no memory.
    pub fn new(alloc: Global) -> Area<L>
        ensures { result ≡ record { heads = []; codes = [] } }
    {
        Area {
            heads: Vec::new(alloc),
            cells: Pages::new(alloc),
        }
    }

    /// How many objects there are.
    #[inline(always)]
    pub fn len(&self) -> usize
        ensures { result ≡ length self.now.heads }
    {
        self.heads.len()
    }

    /// How many cells they have together.
    pub fn size(&self) -> u64
        ensures { result ≡ length self.now.codes }
    {
        self.cells.len()
    }

    /// How many elements an object has.
    #[inline(always)]
    pub fn count(&self, object: u32, shapes: &Shapes) -> u32
        requires laid { IsLaid shapes.now self.now }
        requires object { object < length self.now.heads }
        ensures { result ≡ (slice_index_or (objects_of shapes.now self.now) object no_object).count }
    {
        self.heads[object as usize].count
    }

    /// Where a cell stands among all. Mostly it is of the first element, whose place doesn't wait for the
    /// width of elements.
    #[inline(always)]
    fn place(&self, object: u32, index: u32, cell: u32, shapes: &Shapes) -> u64
        requires laid { IsLaid shapes.now self.now }
        requires object { object < length self.now.heads }
        requires cell { HasCell (slice_index_or (objects_of shapes.now self.now) object no_object) index cell }
        ensures { IsPlace shapes.now self.now object index cell result }
    {
        let head = self.heads[object as usize];
        if index == 0 {
            return head.start + cell as u64;
        }
        let width = shapes.get(head.shape).len();
        head.start + index as u64 * width as u64 + cell as u64
    }

    /// The value of a cell.
    #[inline(always)]
    pub fn get(
        &self,
        object: u32,
        index: u32,
        cell: u32,
        shapes: &Shapes,
        steps: &mut Steps<L>,
    ) -> Cell
        requires laid { IsLaid shapes.now self.now }
        requires object { object < length self.now.heads }
        requires cell { HasCell (slice_index_or (objects_of shapes.now self.now) object no_object) index cell }
        ensures value { value_of result ≡ cell_value (slice_index_or (objects_of shapes.now self.now) object no_object) index cell }
        ensures step { steps.new ≡ steps.old + 1 }
    {
        let place = self.place(object, index, cell, shapes);
        let head = self.heads[object as usize];
        let kind = kind_at(shapes.get(head.shape), cell as usize);
        decode(kind, self.cells.get(place, steps))
    }

    /// Writes a cell. The value is one of those that the cell may hold.
    #[inline(always)]
    pub fn set(&mut self, object: u32, index: u32, cell: u32, value: Cell, shapes: &Shapes)
        requires laid { IsLaid shapes.now self.old }
        requires object { object < length self.old.heads }
        requires cell { HasCell (slice_index_or (objects_of shapes.now self.old) object no_object) index cell }
        requires suits { IsTrue (suits (slice_index_or (slice_index_or (objects_of shapes.now self.old) object no_object).kinds (cell_place (slice_index_or (objects_of shapes.now self.old) object no_object) index cell) NumberKind) (value_of value)) }
        ensures laid { IsLaid shapes.now self.new }
        ensures written { objects_of shapes.now self.new ≡ objects_with object index cell (value_of value) (objects_of shapes.now self.old) }
    {
        let place = self.place(object, index, cell, shapes);
        self.cells.set(place, encode(value));
    }

    /// Writes a cell, and answers what it held. The value is one of those that the cell may hold.
    #[inline(always)]
    pub fn replace(
        &mut self,
        object: u32,
        index: u32,
        cell: u32,
        value: Cell,
        shapes: &Shapes,
        steps: &mut Steps<L>,
    ) -> Cell
        requires laid { IsLaid shapes.now self.old }
        requires object { object < length self.old.heads }
        requires cell { HasCell (slice_index_or (objects_of shapes.now self.old) object no_object) index cell }
        requires suits { IsTrue (suits (slice_index_or (slice_index_or (objects_of shapes.now self.old) object no_object).kinds (cell_place (slice_index_or (objects_of shapes.now self.old) object no_object) index cell) NumberKind) (value_of value)) }
        ensures before { value_of result ≡ cell_value (slice_index_or (objects_of shapes.now self.old) object no_object) index cell }
        ensures laid { IsLaid shapes.now self.new }
        ensures written { objects_of shapes.now self.new ≡ objects_with object index cell (value_of value) (objects_of shapes.now self.old) }
        ensures step { steps.new ≡ steps.old + 1 }
    {
        let place = self.place(object, index, cell, shapes);
        let head = self.heads[object as usize];
        let kind = kind_at(shapes.get(head.shape), cell as usize);
        let code = encode(value);
        let before = self.cells.get(place, steps);
        self.cells.set(place, code);
        decode(kind, before)
    }

    /// Appends an object of so many elements of a shape, all zero or null, with so many cells together.
    /// Pages come out of the bank as far as it has some.
    ///
    /// # Errors
    ///
    /// Out of memory: the objects are as before.
    pub fn push(
        &mut self,
        shape: u32,
        count: u32,
        size: u64,
        shapes: &Shapes,
        bank: &mut Bank<L>,
    ) -> Result<(), NoMemory>
        requires laid { IsLaid shapes.now self.old }
        requires shape { shape < length shapes.now }
        requires size { size ≡ count * length (slice_index_or shapes.now shape []) }
        ensures laid { IsLaid shapes.now self.new }
        ensures ok { OnOk result (objects_of shapes.now self.new ≡ objects_of shapes.now self.old ++ blank (slice_index_or shapes.now shape []) count ∷ []) }
        ensures err { OnErr result (self.new ≡ self.old) }
    {
        let start = self.cells.len();
        reserve_head(&mut self.heads)?;
        self.cells.push_zeros(size, bank)?;
        self.heads
            .push(Head {
                start,
                count,
                shape,
            })
            .unwrap();
        Ok(())
    }

    /// What is kept of each object.
    pub fn heads(&self) -> &[Head]
        ensures heads { result.now ≡ self.now.heads }
        ensures cells { length self.now.codes ≤ 18446744073709551615 }
    {
        self.heads.as_slice()
    }

    /// The code of a cell, by its place among all.
    pub fn code(&self, place: u64, steps: &mut Steps<L>) -> u128
        requires { place < length self.now.codes }
        ensures code { result ≡ slice_index self.now.codes place }
        ensures step { steps.new ≡ steps.old + 1 }
    {
        self.cells.get(place, steps)
    }

    /// Lets all objects go. Their pages go to the bank as far as it has free places. It takes no
    /// memory.
    pub fn clear(&mut self, bank: &mut Bank<L>)
        ensures { self.new ≡ record { heads = []; codes = [] } }
    {
        self.cells.give_back(bank);
        self.heads.clear();
    }
}
