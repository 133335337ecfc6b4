// Functions.
ghost use Rattle.std.specs.Prelude.{◌≡◌, ◌++◌, OnOk};
ghost use Rattle.rc_fields.specs.Spelling.{counted};
ghost use Rattle.rc_image.specs.Spelling.{function_bytes};
ghost use Rattle.rc_fields.specs.Reading.{Gives, many, counted_at};
ghost use Rattle.rc_image.specs.Reading.{head_at, body_at, function_at};

use crate::instructions::{read_code, write_code};
use crate::lines::{read_lines, write_lines};
use crate::version::Version;
use rc_code::{Function, Instruction, Items, Storage};
use rc_fields::{
    Stop, read_locals, read_number, read_result, read_within, write_locals, write_number,
    write_result,
};
use std::alloc::{AllocError, Global};

/// Reads how many parameters and locals there are, and what these hold.
#[tactic(auto, unfolding(crate::specs::Reading::head_at))]
fn read_head(alloc: Global, types: usize, bytes: &[u8]) -> Result<(u32, Vec<Storage>, &[u8]), Stop>
    ensures { Gives (λ x. (x.0, x.1.items, x.2.now)) result (head_at types bytes.now) }
{
    let (parameters, rest) = read_number(bytes)?;
    let (count, rest) = read_within(parameters, 1 << 32, rest)?;
    let (locals, rest) = read_locals(alloc, types, count, rest)?;
    Ok((parameters, locals, rest))
}

/// Reads instructions and their lines.
#[tactic(auto, unfolding(crate::specs::Reading::body_at))]
fn read_body(
    alloc: Global,
    version: Version,
    bytes: &[u8],
) -> Result<(Vec<Instruction>, Vec<u32>, &[u8]), Stop>
    ensures { Gives (λ x. (x.0.items, x.1.items, x.2.now)) result (body_at version bytes.now) }
{
    let (code, rest) = read_code(alloc, bytes)?;
    let (lines, rest) = read_lines(alloc, version, code.len(), rest)?;
    Ok((code, lines, rest))
}

/// Reads a function, of an image with that many types.
#[tactic(auto, unfolding(crate::specs::Reading::function_at))]
fn read_function(
    alloc: Global,
    version: Version,
    types: usize,
    bytes: &[u8],
) -> Result<(Function, &[u8]), Stop>
    ensures { Gives (λ x. (x.0, x.1.now)) result (function_at version types bytes.now) }
{
    let (parameters, locals, rest) = read_head(alloc, types, bytes)?;
    let (result, rest) = read_result(types, rest)?;
    let (code, lines, rest) = read_body(alloc, version, rest)?;
    let function = Function {
        parameters,
        locals: Items::new(locals),
        result,
        code: Items::new(code),
        lines: Items::new(lines),
    };
    Ok((function, rest))
}

/// Reads so many functions.
fn read_function_list(
    alloc: Global,
    version: Version,
    types: usize,
    count: u32,
    bytes: &[u8],
) -> Result<(Vec<Function>, &[u8]), Stop>
    ensures { Gives (λ x. (x.0.items, x.1.now)) result (many (function_at version types) count bytes.now) }
{
    let mut items = Vec::new(alloc);
    let mut rest = bytes;
    for _ in 0..count {
        let (item, after) = read_function(alloc, version, types, rest)?;
        items.push(item)?;
        rest = after;
    }
    Ok((items, rest))
}

/// Reads how many functions there are, and these.
#[tactic(auto, unfolding(rc_fields::specs::Reading::counted_at))]
pub(crate) fn read_functions(
    alloc: Global,
    version: Version,
    types: usize,
    bytes: &[u8],
) -> Result<(Vec<Function>, &[u8]), Stop>
    ensures { Gives (λ x. (x.0.items, x.1.now)) result (counted_at (function_at version types) bytes.now) }
{
    let (count, rest) = read_number(bytes)?;
    read_function_list(alloc, version, types, count, rest)
}

fn write_function(
    alloc: Global,
    out: &mut Vec<u8>,
    version: Version,
    function: &Function,
) -> Result<(), AllocError>
    ensures { OnOk result (out.new.items ≡ out.old.items ++ function_bytes version function.now) }
{
    write_number(out, u64::from(function.parameters))?;
    write_locals(out, function.locals.as_slice())?;
    write_result(out, function.result)?;
    write_code(out, function.code.as_slice())?;
    write_lines(alloc, out, version, function.lines.as_slice())
}

pub(crate) fn write_functions(
    alloc: Global,
    out: &mut Vec<u8>,
    version: Version,
    functions: &[Function],
) -> Result<(), AllocError>
    ensures { OnOk result (out.new.items ≡ out.old.items ++ counted (function_bytes version) functions.now) }
{
    write_number(out, functions.len() as u64)?;
    for function in functions {
        write_function(alloc, out, version, function)?;
    }
    Ok(())
}
