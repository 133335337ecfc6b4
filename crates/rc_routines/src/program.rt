// The region code of a whole program: its functions' code, beside copies of its structs, globals and
// strings.

ghost use Rattle.std.specs.Prelude.{◌≡◌, map, option_map, IfOk};
ghost use Rattle.rc_core.specs.Laid.{AreLaidOut};
ghost use Rattle.rc_core.specs.Shapes.{bytes_of, field_of, function_of, global_of, program_of, struct_of, ty_of};
ghost use Rattle.rc_rlang.specs.Shapes.{rlang_of, routine_in};
ghost use Rattle.rc_translation.specs.Translation.{region_of_program, routine_of};

use crate::statements::statement;
use rc_accesses::Scope;
use rc_base::NoMemory;
use rc_core::Layouts;
use rc_core::cells::copy_of;
use rc_core::parts::{Field, Function, Global as Variable, Parts, Struct};
use rc_core::program::Program;
use rc_core::ty::Ty;
use rc_rlang::code::{RegionParts, Routine};
use std::alloc::Global;

#[tactic(auto, using(crate::proofs::Copies::copied_begin, crate::proofs::Copies::copied_step, crate::proofs::Copies::copied_end))]
fn copy_types(alloc: Global, types: &[Ty]) -> Result<Vec<Ty>, NoMemory>
    ensures { IfOk result (λ v. map ty_of v.items ≡ map ty_of types.now) }
{
    let mut copies = Vec::new(alloc);
    for ty in types {
        copies.push(copy_of(alloc, ty)?)?;
    }
    Ok(copies)
}

fn copy_result(alloc: Global, given: &Option<Ty>) -> Result<Option<Ty>, NoMemory>
    ensures { IfOk result (λ t. option_map ty_of t ≡ option_map ty_of given.now) }
{
    match given {
        None => Ok(None),
        Some(ty) => Ok(Some(copy_of(alloc, ty)?)),
    }
}

fn copy_field(alloc: Global, field: &Field) -> Result<Field, NoMemory>
    ensures { IfOk result (λ f. field_of f ≡ field_of field.now) }
{
    Ok(Field {
        ty: copy_of(alloc, &field.ty)?,
        length: field.length,
    })
}

#[tactic(auto, using(crate::proofs::Copies::copied_begin, crate::proofs::Copies::copied_step, crate::proofs::Copies::copied_end))]
fn copy_struct(alloc: Global, structure: &Struct) -> Result<Struct, NoMemory>
    ensures { IfOk result (λ s. struct_of s ≡ struct_of structure.now) }
{
    let mut fields = Vec::new(alloc);
    for field in &structure.fields {
        fields.push(copy_field(alloc, field)?)?;
    }
    Ok(Struct { fields })
}

#[tactic(auto, using(crate::proofs::Copies::copied_begin, crate::proofs::Copies::copied_step, crate::proofs::Copies::copied_end))]
fn copy_structs(alloc: Global, structs: &[Struct]) -> Result<Vec<Struct>, NoMemory>
    ensures { IfOk result (λ v. map struct_of v.items ≡ map struct_of structs.now) }
{
    let mut copies = Vec::new(alloc);
    for structure in structs {
        copies.push(copy_struct(alloc, structure)?)?;
    }
    Ok(copies)
}

fn copy_global(alloc: Global, global: &Variable) -> Result<Variable, NoMemory>
    ensures { IfOk result (λ g. global_of g ≡ global_of global.now) }
{
    Ok(Variable {
        ty: copy_of(alloc, &global.ty)?,
        length: global.length,
        initial: global.initial,
    })
}

#[tactic(auto, using(crate::proofs::Copies::copied_begin, crate::proofs::Copies::copied_step, crate::proofs::Copies::copied_end))]
fn copy_globals(alloc: Global, globals: &[Variable]) -> Result<Vec<Variable>, NoMemory>
    ensures { IfOk result (λ v. map global_of v.items ≡ map global_of globals.now) }
{
    let mut copies = Vec::new(alloc);
    for global in globals {
        copies.push(copy_global(alloc, global)?)?;
    }
    Ok(copies)
}

fn copy_bytes(alloc: Global, bytes: &Vec<u8>) -> Result<Vec<u8>, NoMemory>
    ensures { IfOk result (λ v. bytes_of v ≡ bytes_of bytes.now) }
{
    let mut copy = Vec::new(alloc);
    copy.extend_from_slice(bytes.as_slice())?;
    Ok(copy)
}

#[tactic(auto, using(crate::proofs::Copies::copied_begin, crate::proofs::Copies::copied_step, crate::proofs::Copies::copied_end))]
fn copy_strings(alloc: Global, strings: &[Vec<u8>]) -> Result<Vec<Vec<u8>>, NoMemory>
    ensures { IfOk result (λ v. map bytes_of v.items ≡ map bytes_of strings.now) }
{
    let mut copies = Vec::new(alloc);
    for bytes in strings {
        copies.push(copy_bytes(alloc, bytes)?)?;
    }
    Ok(copies)
}

/// The region code of a function.
fn routine(
    alloc: Global,
    parts: &Parts,
    layouts: &Layouts,
    f: &Function,
) -> Result<Routine, NoMemory>
    requires laid { AreLaidOut (program_of parts.now).structs layouts.now }
    ensures { IfOk result (λ r. routine_in (program_of parts.now).structs r ≡ routine_of (program_of parts.now) (function_of f.now)) }
{
    let scope = Scope {
        alloc,
        parts,
        layouts,
        locals: f.locals.as_slice(),
    };
    let body = statement(&scope, &f.result, &f.body)?;
    Ok(Routine {
        parameters: f.parameters,
        locals: copy_types(alloc, f.locals.as_slice())?,
        result: copy_result(alloc, &f.result)?,
        deletes: f.deletes,
        line: f.line,
        body: Box::into_inner(body),
    })
}

#[tactic(auto, using(crate::proofs::Copies::copied_begin, crate::proofs::Copies::routines_step, crate::proofs::Copies::routines_end))]
fn routines(
    alloc: Global,
    parts: &Parts,
    layouts: &Layouts,
    functions: &[Function],
) -> Result<Vec<Routine>, NoMemory>
    requires laid { AreLaidOut (program_of parts.now).structs layouts.now }
    ensures { IfOk result (λ v. map (routine_in (program_of parts.now).structs) v.items ≡ map (routine_of (program_of parts.now)) (map function_of functions.now)) }
{
    let mut routines = Vec::new(alloc);
    for f in functions {
        routines.push(routine(alloc, parts, layouts, f)?)?;
    }
    Ok(routines)
}

/// The region code of a program, function by function, by the layouts of its structs.
///
/// # Errors
///
/// Out of memory.
pub fn region_parts(
    alloc: Global,
    program: &Program,
    layouts: &Layouts,
) -> Result<RegionParts, NoMemory>
    requires { AreLaidOut (program_of program.now).structs layouts.now }
    ensures { IfOk result (λ p. rlang_of p ≡ region_of_program (program_of program.now)) }
{
    let parts = program.parts();
    let functions = routines(alloc, parts, layouts, parts.functions.as_slice())?;
    Ok(RegionParts {
        structs: copy_structs(alloc, parts.structs.as_slice())?,
        globals: copy_globals(alloc, parts.globals.as_slice())?,
        strings: copy_strings(alloc, parts.strings.as_slice())?,
        functions,
        main: parts.main,
    })
}
