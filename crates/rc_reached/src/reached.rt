// Whether all cells that a path reaches are of one kind.
ghost use Rattle.std.specs.Prelude.{◌≡◌, ◌≤◌, length, drop, IfOk};
ghost use Rattle.rc_code.specs.Reached.{has_one_kind};
ghost use Rattle.rc_reached.specs.Walks.{AreFit};
ghost use Rattle.rc_reached.specs.Masks.{IsMaskOf};
ghost use Rattle.rc_reached.specs.Numbered.{IsNumbered};

use crate::masks::are_marked;
use crate::numbered::{Numbered, is_one_numbered};
use crate::walks::{are_alike, cells_from};
use rc_code::{Cell, Index};
use std::alloc::{AllocError, Global};

/// Whether all cells that the indices lead to from a place on are as the one there. They are looked at
/// one by one.
///
/// # Errors
///
/// Out of memory.
pub fn has_one_kind(
    alloc: Global,
    indices: &[Index],
    cells: &[Cell],
    place: usize,
) -> Result<bool, AllocError>
    requires { AreFit indices.now (drop place cells.now) }
    ensures { IfOk result (λ is_one. is_one ≡ has_one_kind indices.now (drop place cells.now)) }
{
    let from = cells_from(cells, place);
    let [first, ..] = from else {
        return Ok(false);
    };
    let alike = are_alike(alloc, indices, *first, from)?;
    Ok(alike)
}

/// Whether all cells that the indices lead to from a place on are as the one there, by a mask of cells
/// that are. Where it marks all of them it takes about as many steps as the words that they lead over,
/// and a few for each index; else they are looked at one by one.
///
/// # Errors
///
/// Out of memory.
pub fn has_one_kind_marked(
    alloc: Global,
    indices: &[Index],
    cells: &[Cell],
    place: usize,
    mask: &[u64],
) -> Result<bool, AllocError>
    requires fit { AreFit indices.now (drop place cells.now) }
    requires is { IsMaskOf cells.now place mask.now }
    requires few { length cells.now ≤ 65535 }
    ensures { IfOk result (λ is_one. is_one ≡ has_one_kind indices.now (drop place cells.now)) }
{
    let marked = are_marked(alloc, mask, indices, place)?;
    if marked {
        return Ok(true);
    }
    let is_one = has_one_kind(alloc, indices, cells, place)?;
    Ok(is_one)
}

/// Whether all cells that the indices lead to from a place on are as the one there, by a row of numbers.
/// Where one number is at all these places it looks at no cell; else they are looked at one by one.
///
/// # Errors
///
/// Out of memory.
pub fn has_one_kind_numbered(
    alloc: Global,
    indices: &[Index],
    cells: &[Cell],
    place: usize,
    row: &Numbered,
) -> Result<bool, AllocError>
    requires fit { AreFit indices.now (drop place cells.now) }
    requires is { IsNumbered cells.now row.now }
    ensures { IfOk result (λ is_one. is_one ≡ has_one_kind indices.now (drop place cells.now)) }
{
    if is_one_numbered(indices, row, place) {
        return Ok(true);
    }
    let is_one = has_one_kind(alloc, indices, cells, place)?;
    Ok(is_one)
}
