// Operations and the steps that do them: the code of an expression.

use crate::access::Access;
use rc_core::operators::{Direction, Operator, UnaryOperator};
use rc_core::ty::{NumberType, Signedness, Ty};

/// An operation. Its operands are in the temporary into which its value comes and in those behind it,
/// in their order, and are of the types that it names.
#[derive(Drop)]
pub enum Operation {
    Constant {
        signedness: Signedness,
        value: i64,
    },
    Null,
    /// The pointer to the first element of an object of region 0: a global, or behind the globals a
    /// string.
    Static {
        object: u32,
    },
    Copy {
        local: u32,
    },
    Load {
        access: Access,
    },
    Step {
        direction: Direction,
        pointer: Ty,
        number: Ty,
    },
    StepFrom {
        number: Ty,
        pointer: Ty,
    },
    Unary {
        operator: UnaryOperator,
        signedness: Signedness,
    },
    /// Both operands are of the signedness's type, but for the count of a shift, which has its own.
    Binary {
        operator: Operator,
        signedness: Signedness,
        right: Ty,
    },
    Convert {
        from: NumberType,
        to: NumberType,
    },
    /// `!` of a number.
    NotZero {
        operand: Ty,
    },
    /// 1 where the operand is neither zero nor null, else 0.
    Truth {
        operand: Ty,
    },
    /// 1 where the operand is null as `wanted` says, else 0.
    IsNull {
        wanted: bool,
        operand: Ty,
    },
    /// 1 where two operands of this type are equal as `wanted` says, else 0.
    Same {
        wanted: bool,
        operand: Ty,
    },
    /// A function with a result, with its parameters' types.
    Call {
        function: u32,
        parameters: Vec<Ty>,
    },
    NewRegion,
    NewSubregion,
    RegionOf {
        operand: Ty,
    },
    /// `ralloc`.
    Allocate {
        element: Ty,
    },
    /// `rarrayalloc`.
    AllocateArray {
        element: Ty,
    },
    Putchar,
    Getchar,
}

/// A step of an expression. A temporary's number is how many operands stand below it.
#[derive(Drop)]
pub enum Step {
    /// The operation's value comes into the temporary, as one of this type.
    Set {
        line: u32,
        temporary: u32,
        ty: Ty,
        operation: Operation,
    },
    /// By the value in the temporary, of type `test`, one of two ways is gone. Each leaves a value of
    /// type `result` in the same temporary.
    Fork {
        line: u32,
        temporary: u32,
        test: Ty,
        result: Ty,
        yes: Vec<Step>,
        no: Vec<Step>,
    },
}
