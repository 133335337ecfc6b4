// Paths.
ghost use Rattle.std.specs.Prelude.{◌≡◌, ◌++◌, drop, IfOk, OnOk};
ghost use Rattle.std.specs.List.{AllByRecursion as Every};
ghost use Rattle.rc_code.specs.Image.{IndexFits, cells_at};
ghost use Rattle.rc_code.specs.Reached.{has_one_kind};
ghost use Rattle.rc_fields.specs.Spelling.{number, counted, shift_number, index_bytes, path_bytes};
ghost use Rattle.rc_reached.specs.Walks.{AreFit};
ghost use Rattle.rc_path_rules.specs.Masks.{AreRight};
ghost use Rattle.rc_fields.specs.Reading.{Gives, many, counted_at, keeps_rules, shift_at, index_at, path_at};

use crate::masks::Masks;
use rc_code::{Cell, Index, Items, Path};
use rc_core::ty::Signedness;
use rc_fields::{Stop, cells_of, read_kind, read_number, read_within, write_kind, write_number};
use rc_reached::{
    cells_from, has_one_kind, has_one_kind_marked, has_one_kind_numbered, is_inside, is_nested,
    places,
};
use std::alloc::{AllocError, Global};

/// How many places a path may lead to whose cells are always looked at one by one.
const FEW: u32 = 16;

/// How many places a path may lead to that are gone over one by one.
const SOME: u32 = 256;

/// How many indices such a path may have.
const FEW_INDICES: usize = 12;

/// Whether the cells that are reached are of one kind, by the row of the type, or one by one where that
/// is yet to be made.
fn reaches_one_number(
    alloc: Global,
    masks: &mut Masks,
    types: &[Items<Cell>],
    type_number: u32,
    offset: u32,
    indices: &[Index],
) -> Result<bool, AllocError>
    requires fit { AreFit indices.now (drop offset (cells_at types.now type_number)) }
    requires right { AreRight types.now masks.old }
    ensures one { IfOk result (λ is_one. is_one ≡ has_one_kind indices.now (drop offset (cells_at types.now type_number))) }
    ensures right { IfOk result (λ is_one. AreRight types.now masks.new) }
{
    let place = offset as usize;
    let cells = cells_of(types, type_number);
    if let Some(row) = masks.find_row(type_number) {
        let is_one = has_one_kind_numbered(alloc, indices, cells, place, row)?;
        return Ok(is_one);
    }
    masks.make_row(alloc, type_number, cells)?;
    let is_one = has_one_kind(alloc, indices, cells, place)?;
    Ok(is_one)
}

/// Whether the cells that are reached are of one kind, where strides are nested and all of them are
/// inside the type.
fn reaches_one_kind(
    alloc: Global,
    masks: &mut Masks,
    types: &[Items<Cell>],
    type_number: u32,
    offset: u32,
    indices: &[Index],
) -> Result<bool, AllocError>
    requires fit { AreFit indices.now (drop offset (cells_at types.now type_number)) }
    requires right { AreRight types.now masks.old }
    ensures one { IfOk result (λ is_one. is_one ≡ has_one_kind indices.now (drop offset (cells_at types.now type_number))) }
    ensures right { IfOk result (λ is_one. AreRight types.now masks.new) }
{
    let place = offset as usize;
    let cells = cells_of(types, type_number);
    let places = places(indices);
    if places <= FEW {
        let is_one = has_one_kind(alloc, indices, cells, place)?;
        return Ok(is_one);
    }
    if places <= SOME && indices.len() <= FEW_INDICES {
        return reaches_one_number(alloc, masks, types, type_number, offset, indices);
    }
    if let Some(mask) = masks.find(type_number, cells, place) {
        let is_one = has_one_kind_marked(alloc, indices, cells, place, mask)?;
        return Ok(is_one);
    }
    masks.make(alloc, type_number, cells, place)?;
    let is_one = has_one_kind(alloc, indices, cells, place)?;
    Ok(is_one)
}

/// Whether a path of a type keeps the rules on strides and on the cells that it reaches.
fn keeps_rules(
    alloc: Global,
    masks: &mut Masks,
    types: &[Items<Cell>],
    type_number: u32,
    offset: u32,
    indices: &[Index],
) -> Result<bool, AllocError>
    requires fit { Every IndexFits indices.now }
    requires right { AreRight types.now masks.old }
    ensures keeps { IfOk result (λ keeps. keeps ≡ keeps_rules (drop offset (cells_at types.now type_number)) indices.now) }
    ensures right { IfOk result (λ keeps. AreRight types.now masks.new) }
{
    let from = cells_from(cells_of(types, type_number), offset as usize);
    if !is_nested(indices) {
        return Ok(false);
    }
    if !is_inside(indices, from.len()) {
        return Ok(false);
    }
    reaches_one_kind(alloc, masks, types, type_number, offset, indices)
}

/// Reads the kind of a path's shift, 0 for none.
#[tactic(auto, unfolding(rc_fields::specs::Reading::shift_at))]
fn read_shift(bytes: &[u8]) -> Result<(Option<Signedness>, &[u8]), Stop>
    ensures { Gives (λ x. (x.0, x.1.now)) result (shift_at bytes.now) }
{
    let (number, rest) = read_number(bytes)?;
    match number {
        0 => Ok((None, rest)),
        1 => Ok((Some(Signedness::Signed), rest)),
        2 => Ok((Some(Signedness::Unsigned), rest)),
        _ => Err(Stop::Field(bytes.len())),
    }
}

/// Reads an index.
#[tactic(auto, unfolding(rc_fields::specs::Reading::index_at))]
fn read_index(bytes: &[u8]) -> Result<(Index, &[u8]), Stop>
    ensures { Gives (λ x. (x.0, x.1.now)) result (index_at bytes.now) }
{
    let (length, rest) = read_within(1, 1 << 32, bytes)?;
    let (stride, rest) = read_within(1, 1 << 32, rest)?;
    let (kind, rest) = read_kind(rest)?;
    Ok((
        Index {
            length,
            stride,
            kind,
        },
        rest,
    ))
}

/// Reads so many indices.
fn read_index_list(alloc: Global, count: u32, bytes: &[u8]) -> Result<(Vec<Index>, &[u8]), Stop>
    ensures { Gives (λ x. (x.0.items, x.1.now)) result (many index_at count bytes.now) }
{
    let mut items = Vec::with_capacity(alloc, (bytes.len() / 3).min(count as usize))?;
    let mut rest = bytes;
    for _ in 0..count {
        let (item, after) = read_index(rest)?;
        items.push(item)?;
        rest = after;
    }
    Ok((items, rest))
}

/// Reads how many indices there are, and these.
#[tactic(auto, unfolding(rc_fields::specs::Reading::counted_at))]
fn read_indices(alloc: Global, bytes: &[u8]) -> Result<(Vec<Index>, &[u8]), Stop>
    ensures { Gives (λ x. (x.0.items, x.1.now)) result (counted_at index_at bytes.now) }
{
    let (count, rest) = read_number(bytes)?;
    read_index_list(alloc, count, rest)
}

/// Reads a path.
#[tactic(auto, unfolding(rc_fields::specs::Reading::path_at))]
fn read_path<'b>(
    alloc: Global,
    masks: &mut Masks,
    types: &[Items<Cell>],
    bytes: &'b [u8],
) -> Result<(Path, &'b [u8]), Stop>
    requires { AreRight types.now masks.old }
    ensures gives { Gives (λ x. (x.0, x.1.now)) result (path_at types.now bytes.now) }
    ensures right { IfOk result (λ x. AreRight types.now masks.new) }
{
    let (type_number, rest) = read_within(0, types.len() as u64, bytes)?;
    let (shift, rest) = read_shift(rest)?;
    let (offset, rest) = read_number(rest)?;
    let (indices, rest) = read_indices(alloc, rest)?;
    if !keeps_rules(alloc, masks, types, type_number, offset, &indices)? {
        return Err(Stop::Field(bytes.len()));
    }
    let indices = Items::new(indices);
    let path = Path {
        type_number,
        shift,
        offset,
        indices,
    };
    Ok((path, rest))
}

/// Reads so many paths.
fn read_path_list<'b>(
    alloc: Global,
    masks: &mut Masks,
    types: &[Items<Cell>],
    count: u32,
    bytes: &'b [u8],
) -> Result<(Vec<Path>, &'b [u8]), Stop>
    requires { AreRight types.now masks.old }
    ensures { Gives (λ x. (x.0.items, x.1.now)) result (many (path_at types.now) count bytes.now) }
{
    let mut items = Vec::with_capacity(alloc, (bytes.len() / 4).min(count as usize))?;
    let mut rest = bytes;
    for _ in 0..count {
        let (item, after) = read_path(alloc, masks, types, rest)?;
        items.push(item)?;
        rest = after;
    }
    Ok((items, rest))
}

/// Reads how many paths there are, and these, of an image with these types.
///
/// # Errors
///
/// `Short` where the bytes end inside, `Field` with the first field that breaks a rule, and `Memory`
/// where there is none.
#[tactic(auto, unfolding(rc_fields::specs::Reading::counted_at))]
pub fn read_paths<'b>(
    alloc: Global,
    types: &[Items<Cell>],
    bytes: &'b [u8],
) -> Result<(Vec<Path>, &'b [u8]), Stop>
    ensures { Gives (λ x. (x.0.items, x.1.now)) result (counted_at (path_at types.now) bytes.now) }
{
    let (count, rest) = read_number(bytes)?;
    let mut masks = Masks::new(alloc, types);
    read_path_list(alloc, &mut masks, types, count, rest)
}

fn write_shift(out: &mut Vec<u8>, shift: Option<Signedness>) -> Result<(), AllocError>
    ensures { OnOk result (out.new.items ≡ out.old.items ++ number (shift_number shift)) }
{
    match shift {
        None => write_number(out, 0),
        Some(Signedness::Signed) => write_number(out, 1),
        Some(Signedness::Unsigned) => write_number(out, 2),
    }
}

fn write_index(out: &mut Vec<u8>, index: Index) -> Result<(), AllocError>
    ensures { OnOk result (out.new.items ≡ out.old.items ++ index_bytes index) }
{
    write_number(out, u64::from(index.length))?;
    write_number(out, u64::from(index.stride))?;
    write_kind(out, index.kind)
}

fn write_indices(out: &mut Vec<u8>, indices: &[Index]) -> Result<(), AllocError>
    ensures { OnOk result (out.new.items ≡ out.old.items ++ counted index_bytes indices.now) }
{
    write_number(out, indices.len() as u64)?;
    for index in indices {
        write_index(out, *index)?;
    }
    Ok(())
}

fn write_path(out: &mut Vec<u8>, path: &Path) -> Result<(), AllocError>
    ensures { OnOk result (out.new.items ≡ out.old.items ++ path_bytes path.now) }
{
    write_number(out, u64::from(path.type_number))?;
    write_shift(out, path.shift)?;
    write_number(out, u64::from(path.offset))?;
    write_indices(out, path.indices.as_slice())
}

/// Writes how many paths there are, and these.
///
/// # Errors
///
/// Where there is no memory. What `out` then holds is not said.
pub fn write_paths(out: &mut Vec<u8>, paths: &[Path]) -> Result<(), AllocError>
    ensures { OnOk result (out.new.items ≡ out.old.items ++ counted path_bytes paths.now) }
{
    write_number(out, paths.len() as u64)?;
    for path in paths {
        write_path(out, path)?;
    }
    Ok(())
}
