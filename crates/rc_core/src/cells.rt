// The cells of a type.

ghost use Rattle.std.specs.Prelude.{◌≡◌, ◌-◌, ◌<◌, ◌≤◌, ◌++◌, ◌∷◌, ℕ, [], map, length, take, drop, Option, None, Some, ◌⊎◌, IfOk, OnOk, IfSome};
ghost use Rattle.rc_core.specs.Layout.{cells, copies, field_cells, layouts_of};
ghost use Rattle.rc_core.specs.Shapes.{ty_of, struct_of, field_of, kinds_in, cell_kind_of, program_of};
ghost use Rattle.rc_core.specs.Typing.{IsDefined};
ghost use Rattle.rc_core.specs.Types.{struct};
ghost use Rattle.rc_core.specs.WellTyped.{IsInside, IsLength, StructsFit};

use crate::layout::{CellKind, Layout};
use crate::parts::{Field, Struct};
use crate::program::Program;
use crate::ty::Ty;
use rc_base::NoMemory;
use std::alloc::Global;

/// A type of its own that is the same.
pub fn copy_of(alloc: Global, ty: &Ty) -> Result<Ty, NoMemory>
    ensures { IfOk result (λ t. ty_of t ≡ ty_of ty.now) }
{
    match ty {
        Ty::Int => Ok(Ty::Int),
        Ty::Unsigned => Ok(Ty::Unsigned),
        Ty::Char => Ok(Ty::Char),
        Ty::Region => Ok(Ty::Region),
        Ty::Struct(number) => Ok(Ty::Struct(*number)),
        Ty::Pointer(note, target) => {
            let target = copy_of(alloc, target)?;
            match Box::new(alloc, target) {
                Ok(target) => Ok(Ty::Pointer(*note, target)),
                Err(_) => Err(NoMemory),
            }
        }
    }
}

fn copy_of_kind(alloc: Global, kind: &CellKind) -> Result<CellKind, NoMemory>
    ensures { IfOk result (λ k. cell_kind_of k ≡ cell_kind_of kind.now) }
{
    match kind {
        CellKind::Int => Ok(CellKind::Int),
        CellKind::Unsigned => Ok(CellKind::Unsigned),
        CellKind::Char => Ok(CellKind::Char),
        CellKind::Region => Ok(CellKind::Region),
        CellKind::Pointer(note, target) => Ok(CellKind::Pointer(*note, copy_of(alloc, target)?)),
    }
}

fn push(kinds: &mut Vec<CellKind>, kind: CellKind) -> Result<(), NoMemory>
    ensures { OnOk result (kinds.new.items ≡ kinds.old.items ++ kind ∷ []) }
{
    match kinds.push(kind) {
        Ok(()) => Ok(()),
        Err(_) => Err(NoMemory),
    }
}

/// Adds the cells from `start` to `end` once more.
fn push_again(
    alloc: Global,
    kinds: &mut Vec<CellKind>,
    start: usize,
    end: usize,
) -> Result<(), NoMemory>
    requires start { start ≤ end }
    requires end { end ≤ length kinds.old.items }
    ensures { OnOk result (map cell_kind_of kinds.new.items ≡ map cell_kind_of kinds.old.items ++ take (end - start) (drop start (map cell_kind_of kinds.old.items))) }
{
    for at in start..end {
        let kind = copy_of_kind(alloc, &kinds[at])?;
        push(kinds, kind)?;
    }
    Ok(())
}

#[tactic(auto, using(crate::proofs::CellLoops::repeat_end))]
/// Copies the cells from `start` on until they stand there so many times.
fn repeat(
    alloc: Global,
    kinds: &mut Vec<CellKind>,
    start: usize,
    count: u32,
) -> Result<(), NoMemory>
    requires started { start ≤ length kinds.old.items }
    requires counted { 1 ≤ count }
    ensures { OnOk result (map cell_kind_of kinds.new.items ≡ take start (map cell_kind_of kinds.old.items) ++ copies (Some count) (drop start (map cell_kind_of kinds.old.items))) }
{
    let end = kinds.len();
    for _copy in 1..count {
        push_again(alloc, kinds, start, end)?;
    }
    Ok(())
}

/// The type of the only field, where that is one value: the struct has its cells.
fn only_value(structure: &Struct) -> Option<&Ty>
    ensures { IfSome result (λ t. (count : Option ℕ) × ((struct_of structure.now ≡ record { ty = ty_of t.now; count = count } ∷ []) × ((count ≡ None) ⊎ (count ≡ Some 1)))) }
{
    if structure.fields.len() != 1 {
        return None;
    }
    let field = &structure.fields[0];
    match field.length {
        None => Some(&field.ty),
        Some(count) => {
            if count == 1 {
                return Some(&field.ty);
            }
            None
        }
    }
}

/// A type with the same cells that is no struct of one single value.
fn unwrapped<'a>(structs: &'a [Struct], whole: &'a Ty) -> &'a Ty
    requires fit { StructsFit (map struct_of structs.now) }
    requires defined { IsDefined (map struct_of structs.now) (ty_of whole.now) }
    ensures defined { IsDefined (map struct_of structs.now) (ty_of result.now) }
    ensures same { cells (map struct_of structs.now) (ty_of result.now) ≡ cells (map struct_of structs.now) (ty_of whole.now) }
    ensures inside { (n : ℕ) → IsInside n (ty_of whole.now) → IsInside n (ty_of result.now) }
{
    let mut ty = whole;
    while let Ty::Struct(number) = ty {
        match only_value(&structs[*number as usize]) {
            Some(only) => ty = only,
            None => return ty,
        }
    }
    ty
}

#[cycle(cells)]
fn push_cells(
    alloc: Global,
    kinds: &mut Vec<CellKind>,
    structs: &[Struct],
    ty: &Ty,
) -> Result<(), NoMemory>
    requires fit { StructsFit (map struct_of structs.now) }
    requires defined { IsDefined (map struct_of structs.now) (ty_of ty.now) }
    ensures { OnOk result (map cell_kind_of kinds.new.items ≡ map cell_kind_of kinds.old.items ++ cells (map struct_of structs.now) (ty_of ty.now)) }
{
    match unwrapped(structs, ty) {
        Ty::Int => push(kinds, CellKind::Int),
        Ty::Unsigned => push(kinds, CellKind::Unsigned),
        Ty::Char => push(kinds, CellKind::Char),
        Ty::Region => push(kinds, CellKind::Region),
        Ty::Struct(number) => push_struct(alloc, kinds, structs, *number),
        Ty::Pointer(note, target) => {
            let target = copy_of(alloc, target)?;
            push(kinds, CellKind::Pointer(*note, target))
        }
    }
}

#[cycle(cells)]
fn push_field(
    alloc: Global,
    kinds: &mut Vec<CellKind>,
    structs: &[Struct],
    field: &Field,
) -> Result<(), NoMemory>
    requires fit { StructsFit (map struct_of structs.now) }
    requires defined { IsDefined (map struct_of structs.now) (ty_of field.now.ty) }
    requires counted { IsLength field.now.length }
    ensures { OnOk result (map cell_kind_of kinds.new.items ≡ map cell_kind_of kinds.old.items ++ field_cells (layouts_of (map struct_of structs.now)) (field_of field.now)) }
{
    let start = kinds.len();
    push_cells(alloc, kinds, structs, &field.ty)?;
    match field.length {
        None => Ok(()),
        Some(count) => repeat(alloc, kinds, start, count),
    }
}

#[cycle(cells)]
fn push_struct(
    alloc: Global,
    kinds: &mut Vec<CellKind>,
    structs: &[Struct],
    number: u32,
) -> Result<(), NoMemory>
    requires fit { StructsFit (map struct_of structs.now) }
    requires defined { number < length structs.now }
    ensures { OnOk result (map cell_kind_of kinds.new.items ≡ map cell_kind_of kinds.old.items ++ cells (map struct_of structs.now) (struct number)) }
{
    let fields = &structs[number as usize].fields;
    for field in fields {
        push_field(alloc, kinds, structs, field)?;
    }
    Ok(())
}

/// The cells of a type of the program, in order. It takes memory for these alone: arrays are
/// copied, and no struct is laid out that the type doesn't have inside it.
pub fn cells_of(alloc: Global, program: &Program, ty: &Ty) -> Result<Layout, NoMemory>
    requires { IsDefined (program_of program.now).structs (ty_of ty.now) }
    ensures { IfOk result (λ l. kinds_in l ≡ cells (program_of program.now).structs (ty_of ty.now)) }
{
    let parts = program.parts();
    let mut cells = Vec::new(alloc);
    push_cells(alloc, &mut cells, &parts.structs, ty)?;
    Ok(Layout { cells })
}
