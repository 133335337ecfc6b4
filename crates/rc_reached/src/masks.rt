// Masks: cells of a type that are known to be as one of them, a bit for each.
ghost use Rattle.std.specs.Prelude.{◌≡◌, ◌+◌, ◌/◌, ◌<◌, ◌^◌, ℕ, length, IfOk};
ghost use Rattle.std.specs.List.{AllByRecursion as Every};
ghost use Rattle.rc_code.specs.Image.{IndexFits};
ghost use Rattle.rc_code.specs.Reached.{span};
ghost use Rattle.rc_reached.specs.Walks.{at_all};
ghost use Rattle.rc_reached.specs.Masks.{marks, IsMask};

use crate::bits::{is_marked, mark, narrow_along, no_marks, words_from};
use crate::nesting::span_of;
use crate::walks::is_there;
use rc_code::{Cell, Index};
use std::alloc::{AllocError, Global};

/// Marks a cell, if it is as this one.
fn mark_cell(words: &mut [u64], cell: Cell, cells: &[Cell], place: usize)
    requires mask { IsMask cell cells.now words.old }
    requires room { length cells.now / 64 < length words.old }
    ensures { IsMask cell cells.now words.new }
{
    if !is_there(cell, cells, place) {
        return;
    }
    mark(words, place);
}

/// Marks the cells at these places, if they are as this one.
fn mark_cells(words: &mut [u64], cell: Cell, cells: &[Cell], places: &[u32])
    requires mask { IsMask cell cells.now words.old }
    requires room { length cells.now / 64 < length words.old }
    ensures { IsMask cell cells.now words.new }
{
    for place in places {
        mark_cell(words, cell, cells, *place as usize);
    }
}

/// A mask of cells that are as this one, of those at these places. Whatever places they are, it marks no
/// other cells.
///
/// # Errors
///
/// Out of memory.
pub fn mask_of(
    alloc: Global,
    cell: Cell,
    cells: &[Cell],
    places: &[u32],
) -> Result<Vec<u64>, AllocError>
    ensures { IfOk result (λ words. IsMask cell cells.now words.items) }
{
    let mut words = no_marks(alloc, cells.len() / 64 + 1)?;
    mark_cells(&mut words, cell, cells, places);
    Ok(words)
}

/// Whether all places that the indices lead to from the first on are marked.
fn is_marked_all(words: &mut [u64], indices: &[Index], reach: usize) -> bool
    requires fit { Every IndexFits indices.now }
    requires reach { span indices.now ≡ reach }
    requires room { reach / 64 < length words.old }
    requires small { reach < 2 ^ 32 }
    ensures { result ≡ at_all (marks words.old) indices.now 0 }
{
    let mut reach = reach;
    let mut rest = indices;
    while let [index, after @ ..] = rest {
        reach = narrow_along(words, *index, reach);
        rest = after;
    }
    is_marked(words, 0)
}

/// Whether all places that the indices lead to from one on are marked. It takes about as many steps as
/// the words that they lead over, and a few for each index.
///
/// # Errors
///
/// Out of memory.
pub(crate) fn are_marked(
    alloc: Global,
    words: &[u64],
    indices: &[Index],
    start: usize,
) -> Result<bool, AllocError>
    requires fit { Every IndexFits indices.now }
    requires small { start + span indices.now < 2 ^ 32 }
    ensures { IfOk result (λ all. all ≡ at_all (marks words.now) indices.now start) }
{
    let reach = span_of(indices);
    let mut from = words_from(alloc, words, start, reach / 64 + 1)?;
    Ok(is_marked_all(&mut from, indices, reach))
}
