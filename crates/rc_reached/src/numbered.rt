// Rows: the cells of a type by number, a byte a cell.
ghost use Rattle.std.specs.Prelude.{◌≡◌, ℕ, suc, true, drop, List, slice_get, Some, IfOk};
ghost use Rattle.rc_code.specs.declared.kind.Cell.{Cell};
ghost use Rattle.rc_reached.specs.Walks.{at_each, at_all, is_there};
ghost use Rattle.rc_reached.specs.Numbered.{is_numbered, AreNumbered, IsNumbered};

use crate::walks::is_there;
use rc_code::{Cell, Index};
use std::alloc::{AllocError, Global};

/// The cells of a type by number. Those of one number, but 0, are alike.
#[derive(Drop)]
pub struct Numbered {
    /// For each number from 1 on a cell that has it.
    firsts: Vec<Cell>,
    /// For each cell its number, 0 where it has none.
    numbers: Vec<u8>,
}

/// That number, if the cell at that place is as the first that has it, and else 0.
fn number_if(number: u8, firsts: &[Cell], cells: &[Cell], place: usize) -> u8
    ensures { (k : ℕ) (c : Cell) → result ≡ suc k → slice_get firsts.now k ≡ Some c → is_there c cells.now place ≡ true }
{
    if number == 0 {
        return 0;
    }
    let Some(first) = firsts.get(usize::from(number - 1)) else {
        return 0;
    };
    if !is_there(*first, cells, place) {
        return 0;
    }
    number
}

/// These numbers, so far as cells are as the first that has their number.
fn numbers_if(
    alloc: Global,
    wanted: &[u8],
    firsts: &[Cell],
    cells: &[Cell],
) -> Result<Vec<u8>, AllocError>
    ensures { IfOk result (λ numbers. AreNumbered cells.now firsts.now numbers.items) }
{
    let mut numbers = Vec::with_capacity(alloc, wanted.len())?;
    for number in wanted {
        let place = numbers.len();
        numbers.push(number_if(*number, firsts, cells, place))?;
    }
    Ok(numbers)
}

/// The cells of a type by these numbers, of which 1 is that of the first of these cells. Whatever
/// numbers they are, it keeps none that cells have which are not alike.
pub(crate) fn numbered_by(
    alloc: Global,
    firsts: Vec<Cell>,
    wanted: &[u8],
    cells: &[Cell],
) -> Result<Numbered, AllocError>
    ensures { IfOk result (λ row. IsNumbered cells.now row) }
{
    let numbers = numbers_if(alloc, wanted, &firsts, cells)?;
    Ok(Numbered { firsts, numbers })
}

/// The numbers from an offset on, none where there are no more.
#[inline(always)]
fn numbers_from(numbers: &[u8], offset: usize) -> &[u8]
    ensures { result.now ≡ drop offset numbers.now }
{
    match numbers.get(offset..) {
        Some(from) => from,
        None => &[],
    }
}

/// Whether that number is at that place.
#[inline(always)]
fn is_numbered(number: u8, numbers: &[u8], place: usize) -> bool
    ensures { result ≡ is_numbered number numbers.now place }
{
    match numbers.get(place) {
        None => false,
        Some(there) => *there == number,
    }
}

/// Whether that number is at all places along an index, from the first on.
#[tactic(auto, using(crate::proofs::Numbers::one_further, crate::proofs::Along::each_none))]
fn is_numbered_each(number: u8, from: &[u8], index: Index) -> bool
    ensures { result ≡ at_each (is_numbered number from.now) index.length index.stride 0 }
{
    let mut place = from;
    let mut left = index.length;
    while left > 0 {
        if !is_numbered(number, place, 0) {
            return false;
        }
        place = numbers_from(place, index.stride as usize);
        left -= 1;
    }
    true
}

/// Whether that number is at all places that the indices lead to from the first on.
#[tactic(auto, using(crate::proofs::Numbers::each_further, crate::proofs::Along::each_none))]
fn are_numbered_all(indices: &[Index], number: u8, from: &[u8]) -> bool
    ensures { result ≡ at_all (is_numbered number from.now) indices.now 0 }
{
    match indices {
        [] => is_numbered(number, from, 0),
        [index] => is_numbered_each(number, from, *index),
        [index, after @ ..] => {
            let mut place = from;
            let mut left = index.length;
            while left > 0 {
                if !are_numbered_all(after, number, place) {
                    return false;
                }
                place = numbers_from(place, index.stride as usize);
                left -= 1;
            }
            true
        }
    }
}

/// Whether all cells that the indices lead to from a place on have the number of the one there, which
/// is not 0.
fn has_one_number(indices: &[Index], numbers: &[u8], firsts: &[Cell], place: usize) -> bool
    ensures { result ≡ true → (cells : List Cell) (c : Cell) → AreNumbered cells firsts.now numbers.now → slice_get cells place ≡ Some c → at_all (is_there c cells) indices.now place ≡ true }
{
    let Some(number) = numbers.get(place) else {
        return false;
    };
    let number = *number;
    if number == 0 {
        return false;
    }
    if usize::from(number) > firsts.len() {
        return false;
    }
    are_numbered_all(indices, number, numbers_from(numbers, place))
}

/// Whether all cells that the indices lead to from a place on are known to be as the one there.
pub(crate) fn is_one_numbered(indices: &[Index], row: &Numbered, place: usize) -> bool
    ensures { result ≡ true → (cells : List Cell) (c : Cell) → IsNumbered cells row.now → slice_get cells place ≡ Some c → at_all (is_there c cells) indices.now place ≡ true }
{
    has_one_number(indices, &row.numbers, &row.firsts, place)
}
