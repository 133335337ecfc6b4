// Stores to annotated cells.

use rc_core::ty::Note;

/// A store to an annotated cell, which may have to check what it stores: its point in its function, its
/// line, and the annotation of the cell.
#[derive(Clone, Copy, Debug, PartialEq, Eq)]
pub struct Site {
    pub point: u32,
    pub line: u32,
    pub note: Note,
}
