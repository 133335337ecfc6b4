// What the cells of types hold.

use crate::ty::{Note, Ty};

/// What one cell holds.
#[derive(Debug, Drop, PartialEq, Eq)]
pub enum CellKind {
    Int,
    Unsigned,
    Char,
    Region,
    Pointer(Note, Ty),
}

/// The cells of a type, or of one element of an object, in order.
#[derive(Debug, Drop, PartialEq, Eq)]
pub struct Layout {
    pub cells: Vec<CellKind>,
}
