// The code of statements and of functions.

use crate::access::Access;
use crate::steps::Step;
use rc_core::parts::{Global, Struct};
use rc_core::stmt::Change;
use rc_core::ty::Ty;

/// What is done with the values in the temporaries from 0 on.
#[derive(Drop)]
pub enum Act {
    /// Nothing: the value is let go.
    Drop,
    /// A call of a function without a result, with its parameters' types.
    Perform {
        line: u32,
        function: u32,
        parameters: Vec<Ty>,
    },
    Assign {
        line: u32,
        local: u32,
        ty: Ty,
    },
    Store {
        line: u32,
        access: Access,
    },
    /// `place op= e`. The new operand stands behind the place's temporaries.
    Update {
        line: u32,
        access: Access,
        change: Change,
        operand: Ty,
    },
    /// An assignment of whole structs, cell by cell. The right place's temporaries stand behind the
    /// left one's.
    Move {
        line: u32,
        structure: u32,
        left: Access,
        right: Access,
    },
    /// `deleteregion`.
    Delete {
        line: u32,
    },
    /// `return`, with the type of the result.
    Leave {
        line: u32,
        result: Option<Ty>,
    },
}

/// A branch on temporary 0, of this type, that is taken where the value is true (neither zero nor
/// null) as `wanted` says.
#[derive(Drop)]
pub struct Test {
    pub line: u32,
    pub ty: Ty,
    pub wanted: bool,
}

/// The code of a statement.
#[derive(Drop)]
pub enum Code {
    Simple {
        steps: Vec<Step>,
        act: Act,
    },
    /// The local becomes zero or null.
    Clear {
        line: u32,
        local: u32,
        ty: Ty,
    },
    Block {
        body: Vec<Code>,
    },
    Branch {
        steps: Vec<Step>,
        test: Test,
        yes: Box<Code>,
        no: Box<Code>,
    },
    /// A condition or none stands before the body; `third` runs behind it.
    Loop {
        line: u32,
        steps: Vec<Step>,
        test: Option<Test>,
        third: Box<Code>,
        body: Box<Code>,
    },
    /// The condition stands behind the body.
    Repeat {
        line: u32,
        body: Box<Code>,
        steps: Vec<Step>,
        test: Test,
    },
    Break {
        line: u32,
    },
    Continue {
        line: u32,
    },
}

/// A function in region code. Its first `parameters` locals are its parameters.
#[derive(Drop)]
pub struct Routine {
    pub parameters: u32,
    pub locals: Vec<Ty>,
    pub result: Option<Ty>,
    pub deletes: bool,
    /// The line of its first word.
    pub line: u32,
    pub body: Code,
}

/// The parts of a program in region code, which needn't fit together.
#[derive(Drop)]
pub struct RegionParts {
    pub structs: Vec<Struct>,
    pub globals: Vec<Global>,
    /// The bytes of each string literal, without the 0 at its end.
    pub strings: Vec<Vec<u8>>,
    pub functions: Vec<Routine>,
    pub main: u32,
}
