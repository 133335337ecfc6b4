// The types that a program names.
ghost use Rattle.std.specs.Prelude.{◌≡◌, ◌≤◌, ℕ, List, flat_map, length, map, OnOk, IfOk};
ghost use Rattle.rc_core.specs.Programs.{Global as CleanGlobal};
ghost use Rattle.rc_core.specs.Shapes.{bytes_of, field_of, global_of, struct_of, ty_of};
ghost use Rattle.rc_core.specs.Types.{char};
ghost use Rattle.rc_emission.specs.KeptOperands.{same_type};
ghost use Rattle.rc_lines.specs.ProgramCode.{IsProgramCode};
ghost use Rattle.rc_numbering.specs.Names.{fields_names, pointed_to, routine_names, structs_from, types_of, with_pointed};
ghost use Rattle.rc_numbering.specs.Tables.{seen_behind};
ghost use Rattle.rc_rlang.specs.Shapes.{rlang_of};
ghost use Rattle.rc_tables.specs.Kept.{all_types};

use crate::code::add_routine;
use crate::named_types::{add_all, add_pointed, add_with_pointed};
use crate::types::TypeTable;
use rc_base::NoMemory;
use rc_core::parts::{Field, Global as Variable, Struct};
use rc_core::ty::Ty;
use rc_lines::FunctionCode;
use rc_rlang::code::RegionParts;
use std::alloc::Global;

/// The types of a program's structs, in their order.
///
/// # Errors
///
/// Out of memory, or more structs than 32 bits can number.
pub fn struct_types(alloc: Global, structs: &[Struct]) -> Result<Vec<Ty>, NoMemory>
    ensures { IfOk result (λ r. map ty_of r.items ≡ structs_from 0 (map struct_of structs.now)) }
{
    if structs.len() > u32::MAX as usize {
        return Err(NoMemory);
    }
    let mut types = Vec::new(alloc);
    for number in 0..structs.len() {
        types.push(Ty::Struct(number as u32))?;
    }
    Ok(types)
}

/// Enters what the fields of a struct point to.
fn add_fields<'a>(types: &mut TypeTable<'a>, fields: &'a [Field]) -> Result<(), NoMemory>
    ensures { OnOk result (all_types types.new ≡ seen_behind same_type (all_types types.old) (fields_names (map field_of fields.now))) }
{
    for field in fields {
        add_pointed(types, &field.ty)?;
    }
    Ok(())
}

/// Enters what the fields of structs point to.
fn add_structs<'a>(types: &mut TypeTable<'a>, structs: &'a [Struct]) -> Result<(), NoMemory>
    ensures { OnOk result (all_types types.new ≡ seen_behind same_type (all_types types.old) (flat_map fields_names (map struct_of structs.now))) }
{
    for structure in structs {
        add_fields(types, structure.fields.as_slice())?;
    }
    Ok(())
}

/// Enters the types of globals and what they point to.
fn add_globals<'a>(types: &mut TypeTable<'a>, globals: &'a [Variable]) -> Result<(), NoMemory>
    ensures { OnOk result (all_types types.new ≡ seen_behind same_type (all_types types.old) (flat_map (λ (g : CleanGlobal). with_pointed g.ty) (map global_of globals.now))) }
{
    for global in globals {
        add_with_pointed(types, &global.ty)?;
    }
    Ok(())
}

/// Enters the type of strings' elements, for each string.
fn add_strings<'a>(
    types: &mut TypeTable<'a>,
    element: &'a Ty,
    strings: &[Vec<u8>],
) -> Result<(), NoMemory>
    requires { ty_of element.now ≡ char }
    ensures { OnOk result (all_types types.new ≡ seen_behind same_type (all_types types.old) (map (λ (bytes : List ℕ). char) (map bytes_of strings.now))) }
{
    for _string in strings {
        types.add(element)?;
    }
    Ok(())
}

/// Enters what the functions name.
fn add_functions<'a>(
    types: &mut TypeTable<'a>,
    parts: &'a RegionParts,
    functions: &'a [FunctionCode<'a>],
) -> Result<(), NoMemory>
    requires { IsProgramCode (rlang_of parts.now) functions.now }
    ensures { OnOk result (all_types types.new ≡ seen_behind same_type (all_types types.old) (flat_map (routine_names (rlang_of parts.now)) (rlang_of parts.now).functions)) }
{
    let routines = parts.functions.as_slice();
    for at in 0..routines.len() {
        add_routine(types, &routines[at].result, &functions[at])?;
    }
    Ok(())
}

/// The types that a program names, each at its number. `structs` are the types of its structs, and
/// `element` is `char`, the type of strings' elements.
///
/// # Errors
///
/// Out of memory, or more types than 32 bits can number.
pub fn program_types<'a>(
    alloc: Global,
    parts: &'a RegionParts,
    structs: &'a [Ty],
    element: &'a Ty,
    functions: &'a [FunctionCode<'a>],
) -> Result<TypeTable<'a>, NoMemory>
    requires structs { map ty_of structs.now ≡ structs_from 0 (map struct_of parts.now.structs.items) }
    requires element { ty_of element.now ≡ char }
    requires code { IsProgramCode (rlang_of parts.now) functions.now }
    ensures { IfOk result (λ r. all_types r ≡ types_of (rlang_of parts.now)) }
{
    let mut types = TypeTable::new(alloc);
    add_all(&mut types, structs)?;
    add_structs(&mut types, parts.structs.as_slice())?;
    add_globals(&mut types, parts.globals.as_slice())?;
    add_strings(&mut types, element, parts.strings.as_slice())?;
    add_functions(&mut types, parts, functions)?;
    Ok(types)
}
