// The parts of an image.
ghost use Rattle.std.specs.Prelude.{◌≡◌, map, IfOk};
ghost use Rattle.std.specs.List.{AllByRecursion as Every};
ghost use Rattle.rc_core.specs.Shapes.{struct_of, ty_of};
ghost use Rattle.rc_core.specs.Types.{char};
ghost use Rattle.rc_lines.specs.ProgramCode.{IsProgramCode};
ghost use Rattle.rc_numbering.specs.Small.{FunctionIsSmall, IsSmall};
ghost use Rattle.rc_emit.specs.Cells.{BacksFit};
ghost use Rattle.rc_numbering.specs.Names.{stack_of, structs_from};
ghost use Rattle.rc_numbering.specs.Numbered.{function_of, image_of};
ghost use Rattle.rc_tables.specs.Placed.{path_number, type_number};
ghost use Rattle.rc_rlang.specs.Shapes.{rlang_of};

use crate::cells::type_cells;
use crate::globals::globals;
use rc_base::NoMemory;
use rc_code::{Function, Items, Parts};
use rc_core::ty::Ty;
use rc_lines::FunctionCode;
use rc_rlang::code::RegionParts;
use rc_tables::{Numbers, function, program_paths, program_types};
use std::alloc::Global;

/// The functions of an image.
fn functions(
    numbers: &Numbers<'_>,
    parts: &RegionParts,
    code: &[FunctionCode<'_>],
) -> Result<Vec<Function>, NoMemory>
    requires code { IsProgramCode (rlang_of parts.now) code.now }
    requires backs { BacksFit (rlang_of parts.now) }
    ensures are { IfOk result (λ r. r.items ≡ map (λ f. function_of (type_number numbers.now) (path_number numbers.now) (stack_of (rlang_of parts.now) f) f) (rlang_of parts.now).functions) }
    ensures small { IfOk result (λ r. Every FunctionIsSmall r.items) }
{
    let routines = parts.functions.as_slice();
    let mut functions = Vec::new(numbers.alloc);
    for at in 0..routines.len() {
        functions.push(function(numbers, &routines[at], &code[at])?)?;
    }
    Ok(functions)
}

/// The parts of the image of region code. `structs` are the types of its structs, and `element` is
/// `char`.
pub(crate) fn image_parts(
    alloc: Global,
    parts: &RegionParts,
    structs: &[Ty],
    element: &Ty,
    code: &[FunctionCode<'_>],
) -> Result<Parts, NoMemory>
    requires structs { map ty_of structs.now ≡ structs_from 0 (map struct_of parts.now.structs.items) }
    requires element { ty_of element.now ≡ char }
    requires code { IsProgramCode (rlang_of parts.now) code.now }
    requires backs { BacksFit (rlang_of parts.now) }
    ensures is { IfOk result (λ r. r ≡ image_of (rlang_of parts.now)) }
    ensures small { IfOk result (λ r. IsSmall r) }
{
    if parts.functions.len() > u32::MAX as usize {
        return Err(NoMemory);
    }
    let types = program_types(alloc, parts, structs, element, code)?;
    let paths = program_paths(alloc, &types, code)?;
    let numbers = Numbers {
        alloc,
        types: &types,
        paths: &paths,
    };
    let cells = type_cells(&numbers, parts.structs.as_slice())?;
    let objects = globals(
        &numbers,
        parts.globals.as_slice(),
        element,
        parts.strings.as_slice(),
    )?;
    let functions = functions(&numbers, parts, code)?;
    Ok(Parts {
        types: Items::new(cells),
        globals: Items::new(objects),
        paths: Items::new(paths.into_paths()),
        functions: Items::new(functions),
        main: parts.main,
    })
}
