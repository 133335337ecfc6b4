// Going over the places that a path's indices lead to, one by one.
ghost use Rattle.std.specs.Prelude.{◌≡◌, ◌∷◌, [], ◌++◌, drop, IfOk, OnOk};
ghost use Rattle.rc_reached.specs.Walks.{at_each, at_all, is_there, IsWalkedAs};

use rc_code::{Cell, Index};
use std::alloc::{AllocError, Global};

/// How many indices a path may have that are gone over as they are.
const FEW: usize = 12;

/// The cells from an offset on, none where there are no more.
#[inline(always)]
pub fn cells_from(cells: &[Cell], offset: usize) -> &[Cell]
    ensures { result.now ≡ drop offset cells.now }
{
    match cells.get(offset..) {
        Some(from) => from,
        None => &[],
    }
}

/// Whether at that place there is a cell as this one.
#[inline(always)]
pub(crate) fn is_there(cell: Cell, cells: &[Cell], place: usize) -> bool
    ensures { result ≡ is_there cell cells.now place }
{
    match cells.get(place) {
        None => false,
        Some(there) => there.is_as(cell),
    }
}

/// Whether the cells along an index, from the first on, are as this one.
#[tactic(auto, using(crate::proofs::Alike::one_further, crate::proofs::Along::each_none))]
fn is_alike_each(cell: Cell, from: &[Cell], index: Index) -> bool
    ensures { result ≡ at_each (is_there cell from.now) index.length index.stride 0 }
{
    let mut place = from;
    let mut left = index.length;
    while left > 0 {
        if !is_there(cell, place, 0) {
            return false;
        }
        place = cells_from(place, index.stride as usize);
        left -= 1;
    }
    true
}

/// Whether the cells that the indices lead to from the first on are as this one.
#[tactic(auto, using(crate::proofs::Alike::each_further, crate::proofs::Along::each_none))]
fn are_alike_all(indices: &[Index], cell: Cell, from: &[Cell]) -> bool
    ensures { result ≡ at_all (is_there cell from.now) indices.now 0 }
{
    match indices {
        [] => is_there(cell, from, 0),
        [index] => is_alike_each(cell, from, *index),
        [index, after @ ..] => {
            let mut place = from;
            let mut left = index.length;
            while left > 0 {
                if !are_alike_all(after, cell, place) {
                    return false;
                }
                place = cells_from(place, index.stride as usize);
                left -= 1;
            }
            true
        }
    }
}

/// Adds an index, if it can be other than 0.
fn add_real(real: &mut Vec<Index>, index: Index) -> Result<(), AllocError>
    ensures { OnOk result (IsWalkedAs real.new.items (real.old.items ++ (index ∷ []))) }
{
    if index.length == 1 {
        return Ok(());
    }
    real.push(index)?;
    Ok(())
}

/// The indices that can be other than 0. Where strides are nested and what is reached is inside a type
/// there are few of them, however many indices there are.
fn real_indices(alloc: Global, indices: &[Index]) -> Result<Vec<Index>, AllocError>
    ensures { IfOk result (λ real. IsWalkedAs real.items indices.now) }
{
    let mut real = Vec::new(alloc);
    for index in indices {
        add_real(&mut real, *index)?;
    }
    Ok(real)
}

/// Whether the cells that the indices lead to from the first on are as this one, place by place.
///
/// # Errors
///
/// Out of memory.
pub(crate) fn are_alike(
    alloc: Global,
    indices: &[Index],
    cell: Cell,
    from: &[Cell],
) -> Result<bool, AllocError>
    ensures { IfOk result (λ alike. alike ≡ at_all (is_there cell from.now) indices.now 0) }
{
    if indices.len() <= FEW {
        return Ok(are_alike_all(indices, cell, from));
    }
    let real = real_indices(alloc, indices)?;
    Ok(are_alike_all(&real, cell, from))
}

/// How many places the indices lead to, as far as that is counted.
pub fn places(indices: &[Index]) -> u32 {
    let mut places: u32 = 1;
    for index in indices {
        places = places.saturating_mul(index.length);
    }
    places
}
