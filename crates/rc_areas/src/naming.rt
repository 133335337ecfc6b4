// The names of shapes.
ghost use Rattle.std.specs.Prelude.{◌≡◌, ◌↔◌, map, IfOk, IsTrue};
ghost use Rattle.rc_core.specs.Laid.{held_kind};
ghost use Rattle.rc_core.specs.Shapes.{kinds_in};
ghost use Rattle.rc_core.specs.Shapes.{cell_kind_of};
ghost use Rattle.rc_core.specs.declared.layouts.Kind.TheVariants.{Number, Region, Pointer};
ghost use Rattle.rc_areas.specs.Naming.{kind_byte, name_of, note_byte};
ghost use Rattle.rc_areas.specs.Shapes.{is_kind};

use rc_base::NoMemory;
use rc_core::Kind;
use rc_core::layout::{CellKind, Layout};
use rc_core::ty::Note;
use rc_store::kind_of;
use std::alloc::Global;

fn note_byte(note: Note) -> u8
    ensures { result ≡ note_byte note }
{
    match note {
        Note::Plain => 2,
        Note::SameRegion => 3,
        Note::ParentPtr => 4,
        Note::Traditional => 5,
    }
}

fn kind_byte(kind: Kind) -> u8
    ensures { result ≡ kind_byte kind }
{
    match kind {
        Kind::Number => 0,
        Kind::Region => 1,
        Kind::Pointer(note) => note_byte(note),
    }
}

/// Whether a layout's cell holds a number.
#[inline(always)]
fn is_number(cell: &CellKind) -> bool
    ensures { result ≡ is_kind Number (held_kind (cell_kind_of cell.now)) }
{
    match cell {
        CellKind::Int => true,
        CellKind::Unsigned => true,
        CellKind::Char => true,
        CellKind::Region => false,
        CellKind::Pointer(_, _) => false,
    }
}

/// Whether a layout's cell holds a region.
#[inline(always)]
fn is_region(cell: &CellKind) -> bool
    ensures { result ≡ is_kind Region (held_kind (cell_kind_of cell.now)) }
{
    match cell {
        CellKind::Int => false,
        CellKind::Unsigned => false,
        CellKind::Char => false,
        CellKind::Region => true,
        CellKind::Pointer(_, _) => false,
    }
}

/// Whether a layout's cell holds a pointer with this annotation.
#[inline(always)]
fn is_pointer(cell: &CellKind, note: Note) -> bool
    ensures { result ≡ is_kind (Pointer note) (held_kind (cell_kind_of cell.now)) }
{
    match cell {
        CellKind::Int => false,
        CellKind::Unsigned => false,
        CellKind::Char => false,
        CellKind::Region => false,
        CellKind::Pointer(other, _) => note_byte(note) == note_byte(*other),
    }
}

/// The name of a layout's shape: a byte for each cell of an element.
pub(crate) fn name_of(alloc: Global, layout: &Layout) -> Result<Vec<u8>, NoMemory>
    ensures { IfOk result (λ name. name.items ≡ name_of (map held_kind (kinds_in layout.now))) }
{
    let mut name = Vec::new(alloc);
    for cell in layout.cells.as_slice() {
        match name.push(kind_byte(kind_of(cell))) {
            Ok(()) => {}
            Err(_) => return Err(NoMemory),
        }
    }
    Ok(name)
}

/// Whether a kind is that of a layout's cell.
#[inline(always)]
fn is_kind_of(kind: Kind, cell: &CellKind) -> bool
    ensures { result ≡ is_kind kind (held_kind (cell_kind_of cell.now)) }
{
    match kind {
        Kind::Number => is_number(cell),
        Kind::Region => is_region(cell),
        Kind::Pointer(note) => is_pointer(cell, note),
    }
}

/// Whether a shape is that of a layout.
pub(crate) fn is_of(shape: &[Kind], layout: &Layout) -> bool
    ensures { IsTrue result ↔ (shape.now ≡ map held_kind (kinds_in layout.now)) }
{
    let cells = layout.cells.as_slice();
    if shape.len() != cells.len() {
        return false;
    }
    for i in 0..cells.len() {
        if !is_kind_of(shape[i], &cells[i]) {
            return false;
        }
    }
    true
}
