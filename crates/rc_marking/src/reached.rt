// The cells to which paths lead.
ghost use Rattle.std.specs.Prelude.{◌≡◌};
ghost use Rattle.rc_core.specs.Layout.{note_of};
ghost use Rattle.rc_code.specs.Image.{cells_at};
ghost use Rattle.rc_code.specs.Running.{cell_kind, path_at, reading_of};
ghost use Rattle.rc_marking.specs.Marking.{note_at};

use rc_code::{Cell, Parts};
use rc_core::ty::Note;

/// A cell of a type, by its number among the type's cells.
#[derive(Clone, Copy)]
struct Place {
    type_number: u32,
    offset: u32,
}

/// The place at the end of a path: the first cell of the first type where there is no such path.
fn place_of(parts: &Parts, path: u32) -> Place
    ensures type_number { result.type_number ≡ (path_at (reading_of parts.now) path).type_number }
    ensures offset { result.offset ≡ (path_at (reading_of parts.now) path).offset }
{
    match parts.paths.as_slice().get(path as usize) {
        Some(path) => Place {
            type_number: path.type_number,
            offset: path.offset,
        },
        None => Place {
            type_number: 0,
            offset: 0,
        },
    }
}

/// The cells of a type, none where there is no such type.
fn cells_of(parts: &Parts, type_number: u32) -> &[Cell]
    ensures { result.now ≡ cells_at parts.now.types type_number }
{
    match parts.types.as_slice().get(type_number as usize) {
        Some(cells) => cells.as_slice(),
        None => &[],
    }
}

/// The annotation of a cell.
fn note_of(cell: Cell) -> Note
    ensures { result ≡ note_of (cell_kind cell) }
{
    match cell {
        Cell::Number(_) => Note::Plain,
        Cell::Region => Note::Plain,
        Cell::Pointer(note, _) => note,
    }
}

/// The annotation of the cell to which a path leads.
pub(crate) fn note_at(parts: &Parts, path: u32) -> Note
    ensures { result ≡ note_at parts.now path }
{
    let place = place_of(parts, path);
    match cells_of(parts, place.type_number).get(place.offset as usize) {
        Some(cell) => note_of(*cell),
        None => Note::Plain,
    }
}
