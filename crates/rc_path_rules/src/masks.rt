// The rows and the masks of an image's types. A type's row has a byte for each cell, and its mask for a
// kind of cell has a bit for each cell, 1 where it is known to be of that kind.
ghost use Rattle.std.specs.Prelude.{◌≡◌, ◌≤◌, List, length, OnOk, IfOk, IfSome};
ghost use Rattle.rc_code.specs.declared.kind.Cell.{Cell};
ghost use Rattle.rc_code.specs.Image.{cells_at};
ghost use Rattle.rc_reached.specs.Masks.{IsMaskOf};
ghost use Rattle.rc_reached.specs.Numbered.{IsNumbered};
ghost use Rattle.rc_path_rules.specs.Masks.{AreRight};

use rc_code::{Cell, Items};
use rc_reached::{Kinds, Numbered, mask_of};
use std::alloc::{AllocError, Global};

/// Cells of a type that are as this one.
#[derive(Drop)]
pub(crate) struct Mask {
    type_number: u32,
    cell: Cell,
    words: Vec<u64>,
}

/// The cells of a type by number.
#[derive(Drop)]
pub(crate) struct Row {
    type_number: u32,
    row: Numbered,
}

/// The rows and the masks that were made so far.
#[derive(Drop)]
pub(crate) struct Masks {
    rows: Vec<Row>,
    made: Vec<Mask>,
    kinds: Kinds,
}

/// How many cells a type with masks may have.
const MOST_CELLS: usize = 65_535;

impl Masks {
    /// No masks yet, for an image with these types.
    pub(crate) fn new(alloc: Global, types: &[Items<Cell>]) -> Masks
        ensures { AreRight types.now result }
    {
        Masks {
            rows: Vec::new(alloc),
            made: Vec::new(alloc),
            kinds: Kinds::new(alloc, types.len()),
        }
    }

    /// The row of a type, if it was made.
    pub(crate) fn find_row(&self, type_number: u32) -> Option<&Numbered>
        ensures { (types : List (List Cell)) → AreRight types self.now → IfSome result (λ row. IsNumbered (cells_at types type_number) row.now) }
    {
        let number = self.kinds.row_at(type_number);
        let Some(found) = self.rows.get(number) else {
            return None;
        };
        if found.type_number != type_number {
            return None;
        }
        Some(&found.row)
    }

    /// Makes the row of a type.
    pub(crate) fn make_row(
        &mut self,
        alloc: Global,
        type_number: u32,
        cells: &[Cell],
    ) -> Result<(), AllocError>
        ensures { (types : List (List Cell)) → AreRight types self.old → cells.now ≡ cells_at types type_number → OnOk result (AreRight types self.new) }
    {
        self.kinds.sort(type_number, cells)?;
        let row = self.kinds.numbered(alloc, type_number, cells)?;
        self.kinds.set_row(type_number, self.rows.len());
        self.rows.push(Row { type_number, row })?;
        Ok(())
    }

    /// The mask of a type's cells that are as the one at that place, if it was made.
    pub(crate) fn find(&self, type_number: u32, cells: &[Cell], place: usize) -> Option<&[u64]>
        ensures is { (types : List (List Cell)) → AreRight types self.now → cells.now ≡ cells_at types type_number → IfSome result (λ words. IsMaskOf cells.now place words.now) }
        ensures few { IfSome result (λ words. length cells.now ≤ 65535) }
    {
        let number = self.kinds.mask_at(type_number, place);
        let Some(mask) = self.made.get(number) else {
            return None;
        };
        let Some(cell) = cells.get(place) else {
            return None;
        };
        if mask.type_number != type_number {
            return None;
        }
        if !mask.cell.is_as(*cell) {
            return None;
        }
        if cells.len() > MOST_CELLS {
            return None;
        }
        Some(&mask.words)
    }

    /// Makes the mask of a type's cells that are as the one at that place.
    pub(crate) fn make(
        &mut self,
        alloc: Global,
        type_number: u32,
        cells: &[Cell],
        place: usize,
    ) -> Result<(), AllocError>
        ensures { (types : List (List Cell)) → AreRight types self.old → cells.now ≡ cells_at types type_number → OnOk result (AreRight types self.new) }
    {
        if cells.len() > MOST_CELLS {
            return Ok(());
        }
        let Some(cell) = cells.get(place) else {
            return Ok(());
        };
        self.kinds.sort(type_number, cells)?;
        let places = self.kinds.places_of(type_number, place);
        let words = mask_of(alloc, *cell, cells, places)?;
        self.kinds.set_mask(type_number, place, self.made.len());
        self.made.push(Mask {
            type_number,
            cell: *cell,
            words,
        })?;
        Ok(())
    }
}
