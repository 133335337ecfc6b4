// Functions.
ghost use Rattle.std.specs.Prelude.{◌≡◌, List, map, IfOk};
ghost use Rattle.std.specs.Option.{option_map};
ghost use Rattle.rc_core.specs.Programs.{Struct};
ghost use Rattle.rc_core.specs.Shapes.{ty_of};
ghost use Rattle.rc_lines.specs.ProgramCode.{function_of as code_function};
ghost use Rattle.rc_numbering.specs.Small.{FunctionIsSmall};
ghost use Rattle.rc_numbering.specs.Numbered.{function_of, storage_of};
ghost use Rattle.rc_tables.specs.Placed.{in_place, path_number, type_number};
ghost use Rattle.rc_rlang.specs.Shapes.{routine_in};

use crate::instructions::{instructions, source_lines};
use crate::numbers::Numbers;
use rc_base::NoMemory;
use rc_code::{Function, Items, Storage};
use rc_core::ty::{NumberType, Ty};
use rc_lines::FunctionCode;
use rc_rlang::code::Routine;

/// What a local of a type holds.
///
/// # Errors
///
/// Out of memory.
pub fn storage(numbers: &Numbers<'_>, ty: &Ty) -> Result<Storage, NoMemory>
    ensures { IfOk result (λ r. r ≡ storage_of (type_number numbers.now) (path_number numbers.now) (ty_of ty.now)) }
{
    match ty {
        Ty::Int => Ok(Storage::Number(NumberType::Int)),
        Ty::Unsigned => Ok(Storage::Number(NumberType::Unsigned)),
        Ty::Char => Ok(Storage::Number(NumberType::Char)),
        Ty::Region => Ok(Storage::Region),
        Ty::Struct(_number) => Ok(Storage::Region),
        Ty::Pointer(_, target) => Ok(Storage::Pointer(numbers.type_number(target)?)),
    }
}

/// What the locals of a function hold.
fn storages(numbers: &Numbers<'_>, tys: &[Ty]) -> Result<Vec<Storage>, NoMemory>
    ensures { IfOk result (λ r. r.items ≡ map (storage_of (type_number numbers.now) (path_number numbers.now)) (map ty_of tys.now)) }
{
    let mut storages = Vec::new(numbers.alloc);
    for ty in tys {
        storages.push(storage(numbers, ty)?)?;
    }
    Ok(storages)
}

/// What a result is.
fn result_storage(numbers: &Numbers<'_>, of: &Option<Ty>) -> Result<Option<Storage>, NoMemory>
    ensures { IfOk result (λ r. r ≡ option_map (storage_of (type_number numbers.now) (path_number numbers.now)) (option_map ty_of of.now)) }
{
    match of {
        None => Ok(None),
        Some(ty) => Ok(Some(storage(numbers, ty)?)),
    }
}

/// A function of an image, from its region code and its stack code.
///
/// # Errors
///
/// Out of memory, or more locals or instructions than 32 bits can number.
pub fn function(
    numbers: &Numbers<'_>,
    routine: &Routine,
    code: &FunctionCode<'_>,
) -> Result<Function, NoMemory>
    ensures is { (structs : List Struct) → IfOk result (λ r. r ≡ function_of (type_number numbers.now) (path_number numbers.now) (in_place (code_function code.now)) (routine_in structs routine.now)) }
    ensures small { IfOk result (λ r. FunctionIsSmall r) }
{
    if code.locals.len() > u32::MAX as usize || code.lines.len() > u32::MAX as usize {
        return Err(NoMemory);
    }
    Ok(Function {
        parameters: routine.parameters,
        locals: Items::new(storages(numbers, code.locals.as_slice())?),
        result: result_storage(numbers, &routine.result)?,
        code: Items::new(instructions(numbers, code.lines.as_slice())?),
        lines: Items::new(source_lines(numbers.alloc, code.lines.as_slice())?),
    })
}
