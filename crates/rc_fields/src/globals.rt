// Globals.
ghost use Rattle.std.specs.Prelude.{◌≡◌, ◌++◌, OnOk};
ghost use Rattle.rc_code.specs.Image.{bound_of, cells_at};
ghost use Rattle.rc_fields.specs.Spelling.{counted, initial_bytes, global_bytes};
ghost use Rattle.rc_fields.specs.Reading.{Gives, many, counted_at, text_at, first_number_at, initial_at, global_at};

use crate::numbers::{read_number, read_within, write_number};
use crate::stop::Stop;
use rc_code::{Cell, Global as Variable, Initial, Items};
use rc_core::ty::NumberType;
use std::alloc::{AllocError, Global};

/// One past the greatest number that a global of this type may begin with, and 0 where it may not
/// begin with a number.
fn number_bound(cells: &[Cell]) -> u64
    ensures { result ≡ bound_of cells.now }
{
    match cells {
        [Cell::Number(NumberType::Char)] => 256,
        [Cell::Number(_)] => 1 << 32,
        _ => 0,
    }
}

/// Reads the bytes that a global of so many `char` begins with.
fn read_text(alloc: Global, elements: u32, bytes: &[u8]) -> Result<(Initial, &[u8]), Stop>
    ensures { Gives (λ x. (x.0, x.1.now)) result (text_at elements bytes.now) }
{
    let elements = elements as usize;
    if bytes.len() < elements {
        return Err(Stop::Short);
    }
    let (text, rest) = bytes.split_at(elements);
    let text = Vec::from_slice(alloc, text)?;
    Ok((Initial::Bytes(Items::new(text)), rest))
}

/// Reads the number that a global of one element begins with.
fn read_first_number(
    elements: u32,
    bound: u64,
    left: usize,
    bytes: &[u8],
) -> Result<(Initial, &[u8]), Stop>
    ensures { Gives (λ x. (x.0, x.1.now)) result (first_number_at elements bound left bytes.now) }
{
    if elements != 1 {
        return Err(Stop::Field(left));
    }
    if bound == 0 {
        return Err(Stop::Field(left));
    }
    let (number, rest) = read_within(0, bound, bytes)?;
    Ok((Initial::Number(number), rest))
}

/// Reads what a global begins with, which has `elements` elements of a type with these cells.
#[tactic(auto, unfolding(crate::specs::Reading::initial_at))]
fn read_initial<'b>(
    alloc: Global,
    cells: &[Cell],
    elements: u32,
    bytes: &'b [u8],
) -> Result<(Initial, &'b [u8]), Stop>
    ensures { Gives (λ x. (x.0, x.1.now)) result (initial_at cells.now elements bytes.now) }
{
    let left = bytes.len();
    let bound = number_bound(cells);
    let (tag, rest) = read_number(bytes)?;
    match tag {
        0 => Ok((Initial::Zeros, rest)),
        1 => read_first_number(elements, bound, left, rest),
        2 => {
            if bound == 256 {
                return read_text(alloc, elements, rest);
            }
            Err(Stop::Field(left))
        }
        _ => Err(Stop::Field(left)),
    }
}

/// Reads a global.
#[tactic(auto, unfolding(crate::specs::Reading::global_at))]
fn read_global<'b>(
    alloc: Global,
    types: &[Items<Cell>],
    bytes: &'b [u8],
) -> Result<(Variable, &'b [u8]), Stop>
    ensures { Gives (λ x. (x.0, x.1.now)) result (global_at types.now bytes.now) }
{
    let (type_number, rest) = read_within(0, types.len() as u64, bytes)?;
    let (elements, rest) = read_within(1, 1 << 31, rest)?;
    let cells = cells_of(types, type_number);
    let (initial, rest) = read_initial(alloc, cells, elements, rest)?;
    let global = Variable {
        type_number,
        elements,
        initial,
    };
    Ok((global, rest))
}

/// The cells of a type, none where there is no such type.
pub fn cells_of(types: &[Items<Cell>], type_number: u32) -> &[Cell]
    ensures { result.now ≡ cells_at types.now type_number }
{
    match types.get(type_number as usize) {
        Some(cells) => cells.as_slice(),
        None => &[],
    }
}

/// Reads so many globals.
fn read_global_list<'b>(
    alloc: Global,
    types: &[Items<Cell>],
    count: u32,
    bytes: &'b [u8],
) -> Result<(Vec<Variable>, &'b [u8]), Stop>
    ensures { Gives (λ x. (x.0.items, x.1.now)) result (many (global_at types.now) count bytes.now) }
{
    let mut items = Vec::new(alloc);
    let mut rest = bytes;
    for _ in 0..count {
        let (item, after) = read_global(alloc, types, rest)?;
        items.push(item)?;
        rest = after;
    }
    Ok((items, rest))
}

/// Reads how many globals there are, and these, of an image with these types.
///
/// # Errors
///
/// `Short` where the bytes end inside, `Field` with the first field that breaks a rule, and `Memory`
/// where there is none.
#[tactic(auto, unfolding(crate::specs::Reading::counted_at))]
pub fn read_globals<'b>(
    alloc: Global,
    types: &[Items<Cell>],
    bytes: &'b [u8],
) -> Result<(Vec<Variable>, &'b [u8]), Stop>
    ensures { Gives (λ x. (x.0.items, x.1.now)) result (counted_at (global_at types.now) bytes.now) }
{
    let (count, rest) = read_number(bytes)?;
    read_global_list(alloc, types, count, rest)
}

fn write_initial(out: &mut Vec<u8>, initial: &Initial) -> Result<(), AllocError>
    ensures { OnOk result (out.new.items ≡ out.old.items ++ initial_bytes initial.now) }
{
    match initial {
        Initial::Zeros => write_number(out, 0),
        Initial::Number(first) => {
            write_number(out, 1)?;
            write_number(out, u64::from(*first))
        }
        Initial::Bytes(bytes) => {
            write_number(out, 2)?;
            out.extend_from_slice(bytes.as_slice())
        }
    }
}

fn write_global(out: &mut Vec<u8>, global: &Variable) -> Result<(), AllocError>
    ensures { OnOk result (out.new.items ≡ out.old.items ++ global_bytes global.now) }
{
    write_number(out, u64::from(global.type_number))?;
    write_number(out, u64::from(global.elements))?;
    write_initial(out, &global.initial)
}

/// Writes how many globals there are, and these.
///
/// # Errors
///
/// Where there is no memory. What `out` then holds is not said.
pub fn write_globals(out: &mut Vec<u8>, globals: &[Variable]) -> Result<(), AllocError>
    ensures { OnOk result (out.new.items ≡ out.old.items ++ counted global_bytes globals.now) }
{
    write_number(out, globals.len() as u64)?;
    for global in globals {
        write_global(out, global)?;
    }
    Ok(())
}
