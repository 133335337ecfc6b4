// What names and parts of expressions are found to be.

use rc_core::parts::Field;
use rc_core::ty::Ty;
use rc_deletes::Builtin;

/// What declarations of a function agree in: its parameters, its result (none for `void`), and
/// whether it `deletes`.
#[derive(Drop)]
pub struct Signature {
    pub takes: Vec<Ty>,
    pub gives: Option<Ty>,
    pub deletes: bool,
}

/// What a name stands for.
#[derive(Drop)]
pub enum Meaning {
    Local(u32, Ty),
    /// A global, and its length where it is an array.
    Global(u32, Ty, Option<u32>),
    /// A function, with its number where the text defines it.
    Function(Option<u32>, Signature),
    Builtin(Builtin),
}

/// What is called.
#[derive(Clone, Copy)]
pub enum Callee<'a> {
    /// A function, with its number where the text defines it.
    Function(Option<u32>, &'a Signature),
    Builtin(Builtin),
    /// A local or a global, which is no function.
    NoFunction,
}

/// A field that was found by its name, with its number in its struct.
#[derive(Clone, Copy)]
pub struct Found<'a> {
    pub number: u32,
    pub field: &'a Field,
}
