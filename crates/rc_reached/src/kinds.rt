// The kinds of the cells of types, and where in a type its cells of a kind are.
ghost use Rattle.std.specs.Prelude.{IfOk};
ghost use Rattle.rc_reached.specs.Numbered.{IsNumbered};

use crate::numbered::{Numbered, numbered_by};
use rc_code::Cell;
use std::alloc::{AllocError, Global};

/// Cells of a type that are alike.
#[derive(Clone, Copy)]
struct Kind {
    /// Where their places begin among all places.
    start: usize,
    /// How many of them are placed.
    count: usize,
    /// Its number among those of its type that have many cells, from 1 on, and 0 for others.
    rank: u8,
}

/// The number that a kind of cell had last, and in which type.
#[derive(Clone, Copy)]
struct Seen {
    type_number: u32,
    kind: usize,
}

/// The kinds of the cells of types, for those types that were sorted.
#[derive(Drop)]
pub struct Kinds {
    /// How many types there are.
    types: usize,
    /// For each type the number of its first cell among those that are sorted.
    firsts: Vec<usize>,
    /// For each type the number of its row.
    rows: Vec<u32>,
    /// For each cell the number of its kind.
    numbers: Vec<usize>,
    /// For each cell the number of the mask of its kind.
    masks: Vec<u32>,
    kinds: Vec<Kind>,
    /// For each type the places of its cells, kind by kind.
    places: Vec<u32>,
    /// For each cell that there may be the number of its kind in the type that was sorted last.
    seen: Vec<Seen>,
}

/// In place of a number where there is none.
const NONE: usize = usize::MAX;

/// How many cells a kind has at most that has no number of its own.
const FEW: usize = 16;

/// In place of the number of a mask or of a row where there is none.
const NO_MASK: u32 = u32::MAX;

/// In place of the number of a type where there is none.
const NO_TYPE: u32 = u32::MAX;

/// A kind without cells.
const NO_KIND: Kind = Kind {
    start: 0,
    count: 0,
    rank: 0,
};

/// A number for each cell that there may be: first those that are no pointers, then four for each type.
fn number_of(cell: Cell) -> usize {
    let tag = usize::from(cell.tag());
    match cell {
        Cell::Pointer(_, type_number) => tag.saturating_add(4 * type_number as usize),
        _ => tag,
    }
}

/// Counts a cell of a kind, and says which of all places is its own.
fn count_cell(kinds: &mut [Kind], number: usize) -> usize {
    match kinds.get_mut(number) {
        None => NONE,
        Some(kind) => {
            let at = kind.start.saturating_add(kind.count);
            kind.count = kind.count.saturating_add(1);
            at
        }
    }
}

/// Gives each kind, from one on, as many places as it has cells, and a number if these are many; and
/// begins to count anew.
fn give_places(kinds: &mut [Kind], first: usize, start: usize) {
    let mut start = start;
    let mut rank: u8 = 0;
    for at in first..kinds.len() {
        if let Some(kind) = kinds.get_mut(at) {
            if kind.count > FEW {
                rank = rank.saturating_add(1);
                kind.rank = rank;
            }
            kind.start = start;
            start = start.saturating_add(kind.count);
            kind.count = 0;
        }
    }
}

/// The first cell of each number, where they come in the order of their numbers.
fn first_cells(alloc: Global, ranks: &[u8], cells: &[Cell]) -> Result<Vec<Cell>, AllocError> {
    let mut firsts = Vec::new(alloc);
    let mut next: u8 = 1;
    for place in 0..cells.len() {
        if let Some(rank) = ranks.get(place) {
            if *rank == next {
                firsts.push(cells[place])?;
                next = next.saturating_add(1);
            }
        }
    }
    Ok(firsts)
}

/// Puts cells in the places of their kinds.
fn put_cells(places: &mut [u32], kinds: &mut [Kind], numbers: &[usize]) {
    let mut place: u32 = 0;
    for number in numbers {
        let at = count_cell(kinds, *number);
        if let Some(there) = places.get_mut(at) {
            *there = place;
        }
        place = place.saturating_add(1);
    }
}

/// Those of all places that are a kind's.
fn places_in(places: &[u32], kind: Kind) -> &[u32] {
    let Some(from) = places.get(kind.start..) else {
        return &[];
    };
    match from.get(..kind.count) {
        None => &[],
        Some(places) => places,
    }
}

/// Gives the cells at these places a mask, in the numbers of masks from the first on.
fn set_masks(masks: &mut [u32], first: usize, places: &[u32], mask: u32) {
    for place in places {
        let at = first.saturating_add(*place as usize);
        if let Some(there) = masks.get_mut(at) {
            *there = mask;
        }
    }
}

impl Kinds {
    /// No type is sorted yet, of so many. It takes no memory.
    pub fn new(alloc: Global, types: usize) -> Kinds {
        Kinds {
            types,
            firsts: Vec::new(alloc),
            rows: Vec::new(alloc),
            numbers: Vec::new(alloc),
            masks: Vec::new(alloc),
            kinds: Vec::new(alloc),
            places: Vec::new(alloc),
            seen: Vec::new(alloc),
        }
    }

    /// The number of a type's first cell.
    fn first_of(&self, type_number: u32) -> usize {
        match self.firsts.get(type_number as usize) {
            None => NONE,
            Some(first) => *first,
        }
    }

    /// The number of the mask of a cell's kind.
    pub fn mask_at(&self, type_number: u32, place: usize) -> usize {
        let at = self.first_of(type_number).saturating_add(place);
        match self.masks.get(at) {
            None => NONE,
            Some(mask) => *mask as usize,
        }
    }

    /// The number of a type's row.
    pub fn row_at(&self, type_number: u32) -> usize {
        match self.rows.get(type_number as usize) {
            None => NONE,
            Some(row) => *row as usize,
        }
    }

    /// Says which row is a type's.
    pub fn set_row(&mut self, type_number: u32, row: usize) {
        if let Some(there) = self.rows.get_mut(type_number as usize) {
            *there = u32::try_from(row).unwrap_or(NO_MASK);
        }
    }

    /// The kind of a cell, an empty one where there is none.
    fn kind_at(&self, type_number: u32, place: usize) -> Kind {
        let at = self.first_of(type_number).saturating_add(place);
        let Some(number) = self.numbers.get(at) else {
            return NO_KIND;
        };
        match self.kinds.get(*number) {
            None => NO_KIND,
            Some(kind) => *kind,
        }
    }

    /// The places of a type's cells of the kind of one of them.
    pub fn places_of(&self, type_number: u32, place: usize) -> &[u32] {
        places_in(&self.places, self.kind_at(type_number, place))
    }

    /// Says which mask is that of a type's cells of the kind of one of them.
    pub fn set_mask(&mut self, type_number: u32, place: usize, mask: usize) {
        let kind = self.kind_at(type_number, place);
        let first = self.first_of(type_number);
        let mask = u32::try_from(mask).unwrap_or(NO_MASK);
        set_masks(&mut self.masks, first, places_in(&self.places, kind), mask);
    }

    /// Makes room for each type, and for the number of each cell that there may be, where there is none.
    ///
    /// # Errors
    ///
    /// Out of memory.
    fn make_room(&mut self) -> Result<(), AllocError> {
        if !self.seen.is_empty() {
            return Ok(());
        }
        self.firsts.reserve(self.types)?;
        self.rows.reserve(self.types)?;
        for _ in 0..self.types {
            self.firsts.push(NONE)?;
            self.rows.push(NO_MASK)?;
        }
        let cells = self.types.saturating_add(1).saturating_mul(4);
        self.seen.reserve(cells)?;
        for _ in 0..cells {
            self.seen.push(Seen {
                type_number: NO_TYPE,
                kind: 0,
            })?;
        }
        Ok(())
    }

    /// The number of a cell's kind, a new one where the type has had none of it.
    fn number_kind(&mut self, type_number: u32, cell: Cell) -> Result<usize, AllocError> {
        let new = self.kinds.len();
        if let Some(seen) = self.seen.get_mut(number_of(cell)) {
            if seen.type_number == type_number {
                return Ok(seen.kind);
            }
            seen.type_number = type_number;
            seen.kind = new;
        }
        self.kinds.push(NO_KIND)?;
        Ok(new)
    }

    /// Numbers the kinds of cells, and counts the cells of each.
    fn number_cells(&mut self, type_number: u32, cells: &[Cell]) -> Result<(), AllocError> {
        for cell in cells {
            let number = self.number_kind(type_number, *cell)?;
            count_cell(&mut self.kinds, number);
            self.numbers.push(number)?;
            self.masks.push(NO_MASK)?;
            self.places.push(0)?;
        }
        Ok(())
    }

    /// Sorts the cells of a type by their kinds, if it is not sorted yet. It takes about as many steps as
    /// the type has cells.
    ///
    /// # Errors
    ///
    /// Out of memory.
    pub fn sort(&mut self, type_number: u32, cells: &[Cell]) -> Result<(), AllocError> {
        if self.first_of(type_number) != NONE {
            return Ok(());
        }
        self.make_room()?;
        let first = self.numbers.len();
        let first_kind = self.kinds.len();
        if let Some(there) = self.firsts.get_mut(type_number as usize) {
            *there = first;
        }
        self.number_cells(type_number, cells)?;
        give_places(&mut self.kinds, first_kind, first);
        if let Some(numbers) = self.numbers.get(first..) {
            put_cells(&mut self.places, &mut self.kinds, numbers);
        }
        Ok(())
    }

    /// For each cell of a type the number of its kind, 0 where that has few cells.
    fn ranks(&self, alloc: Global, type_number: u32, count: usize) -> Result<Vec<u8>, AllocError> {
        let mut ranks = Vec::with_capacity(alloc, count)?;
        for place in 0..count {
            ranks.push(self.kind_at(type_number, place).rank)?;
        }
        Ok(ranks)
    }

    /// The row of a type that was sorted.
    ///
    /// # Errors
    ///
    /// Out of memory.
    pub fn numbered(
        &self,
        alloc: Global,
        type_number: u32,
        cells: &[Cell],
    ) -> Result<Numbered, AllocError>
        ensures { IfOk result (λ row. IsNumbered cells.now row) }
    {
        let ranks = self.ranks(alloc, type_number, cells.len())?;
        let firsts = first_cells(alloc, &ranks, cells)?;
        numbered_by(alloc, firsts, &ranks, cells)
    }
}
