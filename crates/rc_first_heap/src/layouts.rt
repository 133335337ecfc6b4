// The layouts of an image's types.
ghost use Rattle.std.specs.Prelude.{◌≡◌, IfOk, map};
ghost use Rattle.rc_core.specs.Shapes.{cell_kind_of, kinds_in};
ghost use Rattle.rc_code.specs.Running.{cell_kind, layout_of};

use rc_base::NoMemory;
use rc_code::{Cell, Items};
use rc_core::layout::{CellKind, Layout};
use rc_core::ty::{NumberType, Ty};
use std::alloc::Global;

/// What a cell holds. The type of a pointer's target is a struct of that number.
///
/// # Errors
///
/// Out of memory.
fn cell_kind(cell: Cell) -> CellKind
    ensures { cell_kind_of result ≡ cell_kind cell }
{
    match cell {
        Cell::Number(NumberType::Int) => CellKind::Int,
        Cell::Number(NumberType::Unsigned) => CellKind::Unsigned,
        Cell::Number(NumberType::Char) => CellKind::Char,
        Cell::Region => CellKind::Region,
        Cell::Pointer(note, number) => CellKind::Pointer(note, Ty::Struct(number)),
    }
}

/// The layout of a type.
///
/// # Errors
///
/// Out of memory.
pub(crate) fn layout_of(alloc: Global, cells: &[Cell]) -> Result<Layout, NoMemory>
    ensures { IfOk result (λ layout. kinds_in layout ≡ layout_of cells.now) }
{
    let mut kinds = Vec::with_capacity(alloc, cells.len())?;
    for cell in cells {
        kinds.push(cell_kind(*cell))?;
    }
    Ok(Layout { cells: kinds })
}

/// The layouts of an image's types.
///
/// # Errors
///
/// Out of memory.
pub fn layouts_of(alloc: Global, types: &[Items<Cell>]) -> Result<Vec<Layout>, NoMemory>
    ensures { IfOk result (λ layouts. map kinds_in layouts.items ≡ map layout_of types.now) }
{
    let mut layouts = Vec::with_capacity(alloc, types.len())?;
    for cells in types {
        layouts.push(layout_of(alloc, cells.as_slice())?)?;
    }
    Ok(layouts)
}
