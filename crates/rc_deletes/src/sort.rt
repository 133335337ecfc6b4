// What rules tell values apart by.

use rc_core::ty::NumberType;

/// The sort of a value.
#[derive(Clone, Copy, Debug, PartialEq, Eq)]
pub enum Sort {
    Number(NumberType),
    Region,
    Pointer,
    /// The word `NULL`, whose type its place decides.
    Null,
    /// A struct, which is no value.
    Struct,
}
