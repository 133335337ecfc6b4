// The cells of types.
ghost use Rattle.std.specs.Prelude.{◌≡◌, ◌≤◌, ◌++◌, List, length, map, option_map, slice_get, OnOk, IfOk};
ghost use Rattle.rc_core.specs.Layout.{Layout, cells, cells_by, field_cells, fields_cells, layouts_of};
ghost use Rattle.rc_core.specs.Shapes.{field_of, struct_of, ty_of};
ghost use Rattle.rc_emit.specs.Cells.{cells_with, AreCells};
ghost use Rattle.rc_tables.specs.Kept.{all_types};

use rc_base::NoMemory;
use rc_code::{Cell, Items};
use rc_core::parts::{Field, Struct};
use rc_core::ty::{NumberType, Ty};
use rc_tables::Numbers;

/// The cells of a struct, where it is there.
fn struct_at(structs: &[Vec<Cell>], structure: u32) -> Option<&Vec<Cell>>
    ensures { option_map (λ cells. cells.now) result ≡ slice_get structs.now structure }
{
    structs.get(structure as usize)
}

/// Puts the cells of a type behind what is there, where the structs have these cells.
fn add_cells(
    out: &mut Vec<Cell>,
    numbers: &Numbers<'_>,
    structs: &[Vec<Cell>],
    ty: &Ty,
) -> Result<(), NoMemory>
    ensures { (of : List Layout) → AreCells numbers.now of structs.now → OnOk result (out.new.items ≡ out.old.items ++ cells_with numbers.now (cells_by of (ty_of ty.now))) }
{
    match ty {
        Ty::Int => Ok(out.push(Cell::Number(NumberType::Int))?),
        Ty::Unsigned => Ok(out.push(Cell::Number(NumberType::Unsigned))?),
        Ty::Char => Ok(out.push(Cell::Number(NumberType::Char))?),
        Ty::Region => Ok(out.push(Cell::Region)?),
        Ty::Struct(number) => match struct_at(structs, *number) {
            Some(cells) => Ok(out.extend_from_slice(cells.as_slice())?),
            None => Ok(()),
        },
        Ty::Pointer(note, target) => {
            Ok(out.push(Cell::Pointer(*note, numbers.type_number(target)?))?)
        }
    }
}

/// Puts the cells of a field behind what is there.
fn add_field(
    out: &mut Vec<Cell>,
    numbers: &Numbers<'_>,
    structs: &[Vec<Cell>],
    field: &Field,
) -> Result<(), NoMemory>
    ensures { (of : List Layout) → AreCells numbers.now of structs.now → OnOk result (out.new.items ≡ out.old.items ++ cells_with numbers.now (field_cells of (field_of field.now))) }
{
    match field.length {
        None => add_cells(out, numbers, structs, &field.ty),
        Some(count) => {
            for _ in 0..count {
                add_cells(out, numbers, structs, &field.ty)?;
            }
            Ok(())
        }
    }
}

/// The cells of a struct, where those before it have these cells.
fn struct_cells(
    numbers: &Numbers<'_>,
    structs: &[Vec<Cell>],
    fields: &[Field],
) -> Result<Vec<Cell>, NoMemory>
    ensures { (of : List Layout) → AreCells numbers.now of structs.now → IfOk result (λ r. r.items ≡ cells_with numbers.now (fields_cells of (map field_of fields.now))) }
{
    let mut cells = Vec::new(numbers.alloc);
    for field in fields {
        add_field(&mut cells, numbers, structs, field)?;
    }
    Ok(cells)
}

/// The cells of each struct.
fn all_cells(numbers: &Numbers<'_>, structs: &[Struct]) -> Result<Vec<Vec<Cell>>, NoMemory>
    ensures { IfOk result (λ r. AreCells numbers.now (layouts_of (map struct_of structs.now)) r.items) }
{
    let mut all = Vec::new(numbers.alloc);
    for structure in structs {
        let cells = struct_cells(numbers, all.as_slice(), structure.fields.as_slice())?;
        all.push(cells)?;
    }
    Ok(all)
}

/// The cells of each type of the table.
pub(crate) fn type_cells(
    numbers: &Numbers<'_>,
    structs: &[Struct],
) -> Result<Vec<Items<Cell>>, NoMemory>
    ensures cells { IfOk result (λ r. r.items ≡ map (cells_with numbers.now) (map (cells (map struct_of structs.now)) (all_types numbers.now.types.now))) }
    ensures few { IfOk result (λ r. length r.items ≤ 4294967295) }
{
    let layouts = all_cells(numbers, structs)?;
    let mut types = Vec::new(numbers.alloc);
    let named = numbers.types.types();
    for ty in named {
        let mut cells = Vec::new(numbers.alloc);
        add_cells(&mut cells, numbers, layouts.as_slice(), ty)?;
        types.push(Items::new(cells))?;
    }
    Ok(types)
}
