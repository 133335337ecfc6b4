// What an image consists of.
ghost use Rattle.std.specs.Prelude.{◌≡◌};
ghost use Rattle.rc_code.specs.Image.{FieldsFit};

use crate::instruction::Instruction;
use crate::items::Items;
use crate::kind::{Cell, Storage};
use rc_core::ty::Signedness;
use std::marker::Model;

/// What a global begins with.
#[derive(Drop)]
pub enum Initial {
    /// Zeros and nulls.
    Zeros,
    /// A number, modulo 2^32, for its one element of one number cell.
    Number(u32),
    /// As many bytes as elements of one `char` cell.
    Bytes(Items<u8>),
}

/// A global: `elements` elements of the type numbered `type_number`.
#[derive(Drop)]
pub struct Global {
    pub type_number: u32,
    pub elements: u32,
    pub initial: Initial,
}

/// An index of a path: how many there are, how many cells apart, and the kind of the number.
#[derive(Clone, Copy, Debug, PartialEq, Eq)]
pub struct Index {
    pub length: u32,
    pub stride: u32,
    pub kind: Signedness,
}

/// A way from a pointer to a cell. The pointer's type is numbered `type_number`. A shift moves the
/// pointer by elements. The cell's number in the element is the offset and, for each index, the index
/// times its stride.
#[derive(Drop)]
pub struct Path {
    pub type_number: u32,
    /// The kind of the shift, where there is one.
    pub shift: Option<Signedness>,
    pub offset: u32,
    pub indices: Items<Index>,
}

/// A function. Its first locals are its parameters, and each instruction has a line.
#[derive(Drop)]
pub struct Function {
    pub parameters: u32,
    pub locals: Items<Storage>,
    pub result: Option<Storage>,
    pub code: Items<Instruction>,
    pub lines: Items<u32>,
}

/// The parts of an image. Types, globals, paths and functions are named by their numbers from 0, and
/// `main` is the number of a function.
#[derive(Drop)]
pub struct Parts {
    /// The cells of each type.
    pub types: Items<Items<Cell>>,
    pub globals: Items<Global>,
    pub paths: Items<Path>,
    pub functions: Items<Function>,
    pub main: u32,
}

/// An image: parts that keep the rules of its format.
#[derive(Drop)]
pub struct Image {
    parts: Parts,
}

impl Model for Image {
    ghost use Rattle.rc_code.specs.declared.image.Parts.{Parts};

    ghost Value = { Parts };

    ghost use Rattle.rc_code.specs.Image.{FieldsFit};

    ghost view = { λ p. p.parts };

    ghost invariant = { λ p. FieldsFit p.parts };
}

impl Image {
    /// The image with these parts, which must keep the rules.
    pub fn new(parts: Parts) -> Image
        requires { FieldsFit parts }
        ensures { result ≡ parts }
    {
        Image { parts }
    }

    /// Its parts.
    pub fn parts(&self) -> &Parts
        ensures parts { result.now ≡ self.now }
        ensures fit { FieldsFit self.now }
    {
        &self.parts
    }

    /// Its parts, to be changed.
    pub fn into_parts(self) -> Parts
        ensures parts { result ≡ self }
        ensures fit { FieldsFit self }
    {
        self.parts
    }
}
