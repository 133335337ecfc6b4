// What cells hold.
ghost use Rattle.std.specs.Prelude.{◌≡◌, map, IfOk};
ghost use Rattle.rc_core.specs.Laid.{held_kind};
ghost use Rattle.rc_core.specs.Layout.{is_plain};
ghost use Rattle.rc_core.specs.Shapes.{kinds_in};
ghost use Rattle.rc_core.specs.Shapes.{cell_kind_of};
ghost use Rattle.rc_store.specs.Values.{blank_of, is_counted, value_of};

use crate::cell::Cell;
use rc_base::NoMemory;
use rc_core::Kind;
use rc_core::layout::{CellKind, Layout};
use rc_core::ty::Note;
use std::alloc::Global;

fn is_plain(note: Note) -> bool
    ensures { result ≡ is_plain note }
{
    match note {
        Note::Plain => true,
        Note::SameRegion => false,
        Note::ParentPtr => false,
        Note::Traditional => false,
    }
}

/// Whether a cell of this kind counts as a reference: a region's does, and that of a pointer without
/// an annotation.
pub fn is_counted(kind: Kind) -> bool
    ensures { result ≡ is_counted kind }
{
    match kind {
        Kind::Number => false,
        Kind::Region => true,
        Kind::Pointer(note) => is_plain(note),
    }
}

/// What a cell holds, without what a pointer points to.
pub fn kind_of(kind: &CellKind) -> Kind
    ensures { result ≡ held_kind (cell_kind_of kind.now) }
{
    match kind {
        CellKind::Int => Kind::Number,
        CellKind::Unsigned => Kind::Number,
        CellKind::Char => Kind::Number,
        CellKind::Region => Kind::Region,
        CellKind::Pointer(note, _) => Kind::Pointer(*note),
    }
}

/// Zero or null.
pub fn blank_of(kind: Kind) -> Cell
    ensures { value_of result ≡ blank_of kind }
{
    match kind {
        Kind::Number => Cell::Number(0),
        Kind::Region => Cell::Nothing,
        Kind::Pointer(_) => Cell::Nothing,
    }
}

/// What the cells of a layout hold.
///
/// # Errors
///
/// Out of memory.
pub fn kinds_of(alloc: Global, layout: &Layout) -> Result<Vec<Kind>, NoMemory>
    ensures { IfOk result (λ kinds. kinds.items ≡ map held_kind (kinds_in layout.now)) }
{
    let mut kinds = Vec::new(alloc);
    for kind in layout.cells.as_slice() {
        match kinds.push(kind_of(kind)) {
            Ok(()) => {}
            Err(_) => return Err(NoMemory),
        }
    }
    Ok(kinds)
}
