// Cells in memory that an operation reads or writes.

use rc_core::ty::{Signedness, Ty};

/// An index into an array field of a struct.
#[derive(Clone, Copy, Debug, PartialEq, Eq)]
pub struct Index {
    /// The length of the field.
    pub count: u32,
    /// The cells of one of its elements.
    pub stride: u32,
    pub signedness: Signedness,
}

/// A cell, or the first of a struct's. Its pointer stands in a temporary, and in those behind it the
/// number by which the pointer is stepped, if any, and the indices in their order.
#[derive(Drop)]
pub struct Access {
    /// What the pointer points to.
    pub element: Ty,
    /// What the cell holds.
    pub cell: Ty,
    /// Whether the pointer is stepped, and by which type of number.
    pub shift: Option<Signedness>,
    /// Cells from the start of the element, beside those that the indices choose.
    pub offset: u32,
    pub indices: Vec<Index>,
}
