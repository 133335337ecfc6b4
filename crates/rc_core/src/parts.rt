// The plain data of a program.

use crate::stmt::Stmt;
use crate::ty::Ty;

/// A field of a struct: one value, or an array of `length`.
#[derive(Drop)]
pub struct Field {
    pub ty: Ty,
    pub length: Option<u32>,
}

/// A struct, with its fields in order.
#[derive(Drop)]
pub struct Struct {
    pub fields: Vec<Field>,
}

/// A global: one value, or an array of `length`. `initial` is its first value, 0 where it isn't one
/// number.
#[derive(Drop)]
pub struct Global {
    pub ty: Ty,
    pub length: Option<u32>,
    pub initial: i64,
}

/// A function. Its first `parameters` locals are its parameters.
#[derive(Drop)]
pub struct Function {
    pub parameters: u32,
    pub locals: Vec<Ty>,
    pub result: Option<Ty>,
    pub deletes: bool,
    /// The line of its first word.
    pub line: u32,
    pub body: Stmt,
}

/// A program's parts, which needn't fit together.
#[derive(Drop)]
pub struct Parts {
    pub structs: Vec<Struct>,
    pub globals: Vec<Global>,
    /// The bytes of each string literal, without the 0 at its end.
    pub strings: Vec<Vec<u8>>,
    pub functions: Vec<Function>,
    pub main: u32,
}
