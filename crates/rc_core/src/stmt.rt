// Statements, each with the line of its first word.

use crate::expr::{Expr, Place};
use crate::operators::{Direction, Operator};
use crate::ty::{NumberType, Signedness};

/// What `op=`, `++` or `--` does to the value of a place.
#[derive(Clone, Copy, Debug, PartialEq, Eq)]
pub enum Change {
    /// The value, a number of this type, is converted to the operator's type, and the result back.
    Compute {
        from: NumberType,
        operator: Operator,
        signedness: Signedness,
    },
    Step {
        direction: Direction,
    },
}

/// A statement. `x op= e` on a local is an assignment.
#[derive(Drop)]
pub enum Stmt {
    Block {
        body: Vec<Stmt>,
    },
    /// One declarator. Without an initial value the local becomes zero or null.
    Declare {
        line: u32,
        local: u32,
        value: Option<Expr>,
    },
    Assign {
        line: u32,
        local: u32,
        value: Expr,
    },
    Store {
        line: u32,
        place: Place,
        value: Expr,
    },
    /// `place op= e`.
    Update {
        line: u32,
        place: Place,
        change: Change,
        value: Expr,
    },
    /// An assignment of whole structs.
    Copy {
        line: u32,
        structure: u32,
        left: Place,
        right: Place,
    },
    Evaluate {
        line: u32,
        value: Expr,
    },
    /// `deleteregion`, with the line of the call.
    Delete {
        line: u32,
        region: Expr,
    },
    /// An absent `else` is an empty block.
    If {
        line: u32,
        test: Expr,
        yes: Box<Stmt>,
        no: Box<Stmt>,
    },
    While {
        line: u32,
        test: Expr,
        body: Box<Stmt>,
    },
    Do {
        line: u32,
        body: Box<Stmt>,
        test: Expr,
    },
    /// Absent first and third parts are empty blocks.
    For {
        line: u32,
        first: Box<Stmt>,
        test: Option<Expr>,
        third: Box<Stmt>,
        body: Box<Stmt>,
    },
    Break {
        line: u32,
    },
    Continue {
        line: u32,
    },
    Return {
        line: u32,
        value: Option<Expr>,
    },
}
