// Expressions and places. Each has the line of its first word, and numbers name what the text
// defines in its order, from 0.

use crate::operators::{Direction, Operator, UnaryOperator};
use crate::ty::{NumberType, Signedness, Ty};

/// An expression. Operands have the types that the operation asks for: where C converts one, the
/// conversion is a node.
#[cycle(expr)]
#[derive(Drop)]
pub enum Expr {
    Constant {
        line: u32,
        signedness: Signedness,
        value: i64,
    },
    Null {
        line: u32,
    },
    /// A string literal: the pointer to its first byte.
    Str {
        line: u32,
        string: u32,
    },
    Local {
        line: u32,
        local: u32,
    },
    Read {
        line: u32,
        place: Place,
    },
    /// The pointer to a global, or to the first element of a global array.
    Address {
        line: u32,
        global: u32,
    },
    /// `p + i`, `p - i` and `&p[i]`.
    Step {
        line: u32,
        direction: Direction,
        pointer: Box<Expr>,
        number: Box<Expr>,
    },
    /// `i + p`, which evaluates the number first.
    StepFrom {
        line: u32,
        number: Box<Expr>,
        pointer: Box<Expr>,
    },
    Unary {
        line: u32,
        operator: UnaryOperator,
        signedness: Signedness,
        operand: Box<Expr>,
    },
    Binary {
        line: u32,
        operator: Operator,
        signedness: Signedness,
        left: Box<Expr>,
        right: Box<Expr>,
    },
    /// A conversion that changes the type of a number.
    Convert {
        line: u32,
        from: NumberType,
        to: NumberType,
        operand: Box<Expr>,
    },
    /// `!` of a number.
    Not {
        line: u32,
        operand: Box<Expr>,
    },
    And {
        line: u32,
        left: Box<Expr>,
        right: Box<Expr>,
    },
    Or {
        line: u32,
        left: Box<Expr>,
        right: Box<Expr>,
    },
    Choose {
        line: u32,
        test: Box<Expr>,
        yes: Box<Expr>,
        no: Box<Expr>,
    },
    /// 1 where the pointer or region is null as `wanted` says, else 0: `e == NULL`, `e != NULL`, `!e`.
    IsNull {
        line: u32,
        wanted: bool,
        operand: Box<Expr>,
    },
    /// 1 where two pointers or regions are equal as `wanted` says, else 0.
    Same {
        line: u32,
        wanted: bool,
        left: Box<Expr>,
        right: Box<Expr>,
    },
    Call {
        line: u32,
        function: u32,
        arguments: Vec<Expr>,
    },
    NewRegion {
        line: u32,
    },
    NewSubregion {
        line: u32,
        parent: Box<Expr>,
    },
    RegionOf {
        line: u32,
        pointer: Box<Expr>,
    },
    /// `ralloc`.
    Allocate {
        line: u32,
        region: Box<Expr>,
        element: Ty,
    },
    /// `rarrayalloc`.
    AllocateArray {
        line: u32,
        region: Box<Expr>,
        number: Box<Expr>,
        element: Ty,
    },
    Putchar {
        line: u32,
        byte: Box<Expr>,
    },
    Getchar {
        line: u32,
    },
}

/// Where a value lies in memory: an element of an object, and the way from there to one cell, or
/// to the first of a struct's.
#[cycle(expr)]
#[derive(Drop)]
pub enum Place {
    /// A global that is no array.
    Global {
        global: u32,
        path: Vec<PathStep>,
    },
    /// `*p`, `p->f`.
    Pointed {
        pointer: Box<Expr>,
        path: Vec<PathStep>,
    },
    /// `p[i]`.
    Indexed {
        pointer: Box<Expr>,
        index: Box<Expr>,
        path: Vec<PathStep>,
    },
}

/// A step inward, from a struct to one of its fields.
#[cycle(expr)]
#[derive(Drop)]
pub enum PathStep {
    Field {
        structure: u32,
        field: u32,
    },
    /// One element of an array field.
    Element {
        structure: u32,
        field: u32,
        index: Expr,
    },
}
