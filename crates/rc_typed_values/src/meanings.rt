// What expressions are found to be.

use rc_core::expr::{Expr, Place};
use rc_core::ty::Ty;

/// What computes a value, with the line where it begins and its type: none for the word `NULL`,
/// whose type its place decides, and none with an annotation on its last star.
#[derive(Drop)]
pub struct Typed {
    pub line: u32,
    pub ty: Option<Ty>,
    pub code: Box<Expr>,
}

/// What an expression is.
#[derive(Drop)]
pub enum Meant {
    Value(Typed),
    /// A local, by its number.
    Variable(u32, Ty),
    /// A place in memory, with the type of what lies there.
    Place(Box<Place>, Ty),
    /// An array field of the struct at a place: the numbers of the struct and of the field, and the
    /// type of the elements.
    Array(Box<Place>, u32, u32, Ty),
}
