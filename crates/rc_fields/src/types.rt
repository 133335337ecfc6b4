// Types, and what locals and results hold.
ghost use Rattle.std.specs.Prelude.{◌≡◌, ◌++◌, OnOk};
ghost use Rattle.rc_code.specs.Kinds.{storage_tagged};
ghost use Rattle.rc_fields.specs.Spelling.{counted, cell_bytes, type_bytes, storage_bytes, result_bytes};
ghost use Rattle.rc_fields.specs.Reading.{Gives, many, cell_at, type_at, types_at, storage_of, storage_at, result_at};

use crate::numbers::{read_number, read_within, write_number};
use crate::stop::Stop;
use rc_base::MOST_STRUCT_CELLS;
use rc_code::{Cell, Items, Storage};
use std::alloc::{AllocError, Global};

/// Reads a cell, of an image with that many types.
#[tactic(auto, unfolding(crate::specs::Reading::cell_at))]
fn read_cell(types: usize, bytes: &[u8]) -> Result<(Cell, &[u8]), Stop>
    ensures { Gives (λ x. (x.0, x.1.now)) result (cell_at types bytes.now) }
{
    let (tag, rest) = read_number(bytes)?;
    match Cell::tagged(tag) {
        None => Err(Stop::Field(bytes.len())),
        Some(Cell::Number(number)) => Ok((Cell::Number(number), rest)),
        Some(Cell::Region) => Ok((Cell::Region, rest)),
        Some(Cell::Pointer(note, _)) => {
            let (target, rest) = read_within(0, types as u64, rest)?;
            Ok((Cell::Pointer(note, target), rest))
        }
    }
}

/// Reads so many cells.
fn read_cells(
    alloc: Global,
    types: usize,
    count: u32,
    bytes: &[u8],
) -> Result<(Vec<Cell>, &[u8]), Stop>
    ensures { Gives (λ x. (x.0.items, x.1.now)) result (many (cell_at types) count bytes.now) }
{
    let mut items = Vec::with_capacity(alloc, bytes.len().min(count as usize))?;
    let mut rest = bytes;
    for _ in 0..count {
        let (item, after) = read_cell(types, rest)?;
        items.push(item)?;
        rest = after;
    }
    Ok((items, rest))
}

/// Reads a type: how many cells it has, and these.
#[tactic(auto, unfolding(crate::specs::Reading::type_at))]
fn read_type(alloc: Global, types: usize, bytes: &[u8]) -> Result<(Items<Cell>, &[u8]), Stop>
    ensures { Gives (λ x. (x.0, x.1.now)) result (type_at types bytes.now) }
{
    let (count, rest) = read_within(1, u64::from(MOST_STRUCT_CELLS) + 1, bytes)?;
    let (cells, rest) = read_cells(alloc, types, count, rest)?;
    Ok((Items::new(cells), rest))
}

/// Reads so many types, of an image with as many as `types`.
fn read_type_list(
    alloc: Global,
    types: usize,
    count: u32,
    bytes: &[u8],
) -> Result<(Vec<Items<Cell>>, &[u8]), Stop>
    ensures { Gives (λ x. (x.0.items, x.1.now)) result (many (type_at types) count bytes.now) }
{
    let mut items = Vec::with_capacity(alloc, (bytes.len() / 2).min(count as usize))?;
    let mut rest = bytes;
    for _ in 0..count {
        let (item, after) = read_type(alloc, types, rest)?;
        items.push(item)?;
        rest = after;
    }
    Ok((items, rest))
}

/// Reads how many types there are, and these.
///
/// # Errors
///
/// `Short` where the bytes end inside, `Field` with the first field that breaks a rule, and `Memory`
/// where there is none.
#[tactic(auto, unfolding(crate::specs::Reading::types_at))]
pub fn read_types(alloc: Global, bytes: &[u8]) -> Result<(Vec<Items<Cell>>, &[u8]), Stop>
    ensures { Gives (λ x. (x.0.items, x.1.now)) result (types_at bytes.now) }
{
    let (count, rest) = read_number(bytes)?;
    read_type_list(alloc, count as usize, count, rest)
}

/// What the tag says, with the type of a pointer. The tag begins where `left` bytes are left.
fn read_tagged(types: usize, left: usize, tag: u32, bytes: &[u8]) -> Result<(Storage, &[u8]), Stop>
    ensures { Gives (λ x. (x.0, x.1.now)) result (storage_of types left (storage_tagged tag) bytes.now) }
{
    match Storage::tagged(tag) {
        None => Err(Stop::Field(left)),
        Some(Storage::Number(number)) => Ok((Storage::Number(number), bytes)),
        Some(Storage::Region) => Ok((Storage::Region, bytes)),
        Some(Storage::Pointer(_)) => {
            let (target, rest) = read_within(0, types as u64, bytes)?;
            Ok((Storage::Pointer(target), rest))
        }
    }
}

/// Reads what a local holds.
#[tactic(auto, unfolding(crate::specs::Reading::storage_at))]
fn read_local(types: usize, bytes: &[u8]) -> Result<(Storage, &[u8]), Stop>
    ensures { Gives (λ x. (x.0, x.1.now)) result (storage_at types bytes.now) }
{
    let (tag, rest) = read_number(bytes)?;
    read_tagged(types, bytes.len(), tag, rest)
}

/// Reads what so many locals hold, of an image with that many types.
///
/// # Errors
///
/// `Short` where the bytes end inside, `Field` with the first field that breaks a rule, and `Memory`
/// where there is none.
pub fn read_locals(
    alloc: Global,
    types: usize,
    count: u32,
    bytes: &[u8],
) -> Result<(Vec<Storage>, &[u8]), Stop>
    ensures { Gives (λ x. (x.0.items, x.1.now)) result (many (storage_at types) count bytes.now) }
{
    let mut items = Vec::with_capacity(alloc, bytes.len().min(count as usize))?;
    let mut rest = bytes;
    for _ in 0..count {
        let (item, after) = read_local(types, rest)?;
        items.push(item)?;
        rest = after;
    }
    Ok((items, rest))
}

/// Reads what a function's result is, 5 for none, of an image with that many types.
///
/// # Errors
///
/// `Short` where the bytes end inside, and `Field` where it breaks a rule.
#[tactic(auto, unfolding(crate::specs::Reading::result_at))]
pub fn read_result(types: usize, bytes: &[u8]) -> Result<(Option<Storage>, &[u8]), Stop>
    ensures { Gives (λ x. (x.0, x.1.now)) result (result_at types bytes.now) }
{
    let (tag, rest) = read_number(bytes)?;
    if tag == 5 {
        return Ok((None, rest));
    }
    let (storage, rest) = read_tagged(types, bytes.len(), tag, rest)?;
    Ok((Some(storage), rest))
}

fn write_cell(out: &mut Vec<u8>, cell: Cell) -> Result<(), AllocError>
    ensures { OnOk result (out.new.items ≡ out.old.items ++ cell_bytes cell) }
{
    write_number(out, u64::from(cell.tag()))?;
    match cell {
        Cell::Number(_) => Ok(()),
        Cell::Region => Ok(()),
        Cell::Pointer(_, target) => write_number(out, u64::from(target)),
    }
}

fn write_type(out: &mut Vec<u8>, cells: &[Cell]) -> Result<(), AllocError>
    ensures { OnOk result (out.new.items ≡ out.old.items ++ type_bytes cells.now) }
{
    write_number(out, cells.len() as u64)?;
    for cell in cells {
        write_cell(out, *cell)?;
    }
    Ok(())
}

/// Writes how many types there are, and these.
///
/// # Errors
///
/// Where there is no memory. What `out` then holds is not said.
pub fn write_types(out: &mut Vec<u8>, types: &[Items<Cell>]) -> Result<(), AllocError>
    ensures { OnOk result (out.new.items ≡ out.old.items ++ counted type_bytes types.now) }
{
    write_number(out, types.len() as u64)?;
    for cells in types {
        write_type(out, cells.as_slice())?;
    }
    Ok(())
}

fn write_local(out: &mut Vec<u8>, local: Storage) -> Result<(), AllocError>
    ensures { OnOk result (out.new.items ≡ out.old.items ++ storage_bytes local) }
{
    write_number(out, u64::from(local.tag()))?;
    match local {
        Storage::Number(_) => Ok(()),
        Storage::Region => Ok(()),
        Storage::Pointer(target) => write_number(out, u64::from(target)),
    }
}

/// Writes how many locals there are, and what they hold.
///
/// # Errors
///
/// Where there is no memory. What `out` then holds is not said.
pub fn write_locals(out: &mut Vec<u8>, locals: &[Storage]) -> Result<(), AllocError>
    ensures { OnOk result (out.new.items ≡ out.old.items ++ counted storage_bytes locals.now) }
{
    write_number(out, locals.len() as u64)?;
    for local in locals {
        write_local(out, *local)?;
    }
    Ok(())
}

/// Writes what a function's result is, 5 for none.
///
/// # Errors
///
/// Where there is no memory. What `out` then holds is not said.
pub fn write_result(out: &mut Vec<u8>, result_type: Option<Storage>) -> Result<(), AllocError>
    ensures { OnOk result (out.new.items ≡ out.old.items ++ result_bytes result_type) }
{
    match result_type {
        None => write_number(out, 5),
        Some(storage) => write_local(out, storage),
    }
}
