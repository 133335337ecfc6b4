// What `op=` does to a value.
ghost use Rattle.std.specs.Prelude.{◌≡◌, option_map, IfOk, IfErr, Some};
ghost use Rattle.rc_core.specs.Shapes.{ty_of, expr_of};
ghost use Rattle.rc_deletes.specs.Operators as rule;
ghost use Rattle.rc_deletes.specs.declared.sort.Sort.TheVariants.{Number, Pointer};
ghost use Rattle.rc_typed_values.specs.Shapes.{typed_of};

use crate::arithmetic::{computed_in, is_shift, right_in};
use rc_core::expr::Expr;
use rc_core::operators::{Direction, Operator};
use rc_core::stmt::Change;
use rc_core::ty::{NumberType, Signedness, Ty};
use rc_core::type_of;
use rc_deletes::Sort;
use rc_syntax::tree::BinaryOp;
use rc_typed_values::{
    Stop, Typed, boxed, converted, in_arithmetic, promoted_value, sort_of, sort_of_type, typed,
};
use std::alloc::Global;

/// The operator on numbers that stands before `=`, where one may.
fn changing(op: BinaryOp) -> Option<Operator>
    ensures { result ≡ rule.changing op }
{
    match op {
        BinaryOp::BitOr => Some(Operator::Or),
        BinaryOp::BitXor => Some(Operator::Xor),
        BinaryOp::BitAnd => Some(Operator::And),
        BinaryOp::ShiftLeft => Some(Operator::ShiftLeft),
        BinaryOp::ShiftRight => Some(Operator::ShiftRight),
        BinaryOp::Add => Some(Operator::Add),
        BinaryOp::Subtract => Some(Operator::Subtract),
        BinaryOp::Multiply => Some(Operator::Multiply),
        BinaryOp::Divide => Some(Operator::Divide),
        BinaryOp::Remainder => Some(Operator::Remainder),
        _ => None,
    }
}

/// What an operator does to a number, and the number that it is done with.
fn computed_change(
    alloc: Global,
    operator: Operator,
    a: NumberType,
    b: NumberType,
    w: Typed,
) -> Result<Option<(Change, Box<Expr>)>, Stop>
    ensures ok { IfOk result (λ c. rule.change_by (Some operator) (Number a) (Number b) (typed_of w) ≡ option_map (λ c. (c.0, expr_of c.1.value)) c) }
    ensures err { IfErr result (λ s. s ≡ Stop.Memory) }
{
    let shift = is_shift(operator);
    let value = in_arithmetic(alloc, b, right_in(shift, a, b), w)?;
    let change = Change::Compute {
        from: a,
        operator,
        signedness: computed_in(shift, a, b),
    };
    Ok(Some((change, value)))
}

/// What an operator does to a pointer, and the number that it is done with.
fn pointer_change(
    alloc: Global,
    operator: Operator,
    b: NumberType,
    w: Typed,
) -> Result<Option<(Change, Box<Expr>)>, Stop>
    ensures ok { IfOk result (λ c. rule.change_by (Some operator) Pointer (Number b) (typed_of w) ≡ option_map (λ c. (c.0, expr_of c.1.value)) c) }
    ensures err { IfErr result (λ s. s ≡ Stop.Memory) }
{
    match operator {
        Operator::Add => {
            let number = promoted_value(alloc, b, w)?;
            let change = Change::Step {
                direction: Direction::Forward,
            };
            Ok(Some((change, number)))
        }
        Operator::Subtract => {
            let number = promoted_value(alloc, b, w)?;
            let change = Change::Step {
                direction: Direction::Backward,
            };
            Ok(Some((change, number)))
        }
        _ => Ok(None),
    }
}

/// What `op=` does to the value of a place of this type, and the value that it is done with. None
/// where it takes no such value.
///
/// # Errors
///
/// Out of memory.
pub fn change_of(
    alloc: Global,
    op: BinaryOp,
    ty: &Ty,
    w: Typed,
) -> Result<Option<(Change, Box<Expr>)>, Stop>
    ensures ok { IfOk result (λ c. rule.change_of op (ty_of ty.now) (typed_of w) ≡ option_map (λ c. (c.0, expr_of c.1.value)) c) }
    ensures err { IfErr result (λ s. s ≡ Stop.Memory) }
{
    let Some(operator) = changing(op) else {
        return Ok(None);
    };
    match (sort_of_type(ty), sort_of(&w.ty)) {
        (Sort::Number(a), Sort::Number(b)) => computed_change(alloc, operator, a, b, w),
        (Sort::Pointer, Sort::Number(b)) => pointer_change(alloc, operator, b, w),
        (_, _) => Ok(None),
    }
}

/// The value of a number after an operator, converted back at the line of the statement.
fn computed_again(
    alloc: Global,
    line: u32,
    from: NumberType,
    operator: Operator,
    signedness: Signedness,
    v: Typed,
    value: Box<Expr>,
) -> Result<Box<Expr>, Stop>
    ensures ok { IfOk result (λ e. expr_of e.value ≡ rule.changed line (typed_of v) (Change.Compute from operator signedness) (expr_of value.value)) }
    ensures err { IfErr result (λ s. s ≡ Stop.Memory) }
{
    let left = in_arithmetic(alloc, from, signedness, v)?;
    let code = Expr::Binary {
        line,
        operator,
        signedness,
        left,
        right: value,
    };
    let computed = typed(alloc, line, None, code)?;
    converted(alloc, type_of(signedness), from, computed)
}

/// The value of a local after a change: the operation and the conversion back stand at the line of
/// the statement.
///
/// # Errors
///
/// Out of memory.
pub fn changed(
    alloc: Global,
    line: u32,
    v: Typed,
    change: Change,
    value: Box<Expr>,
) -> Result<Box<Expr>, Stop>
    ensures ok { IfOk result (λ e. expr_of e.value ≡ rule.changed line (typed_of v) change (expr_of value.value)) }
    ensures err { IfErr result (λ s. s ≡ Stop.Memory) }
{
    match change {
        Change::Compute {
            from,
            operator,
            signedness,
        } => computed_again(alloc, line, from, operator, signedness, v, value),
        Change::Step { direction } => {
            let code = Expr::Step {
                line,
                direction,
                pointer: v.code,
                number: value,
            };
            boxed(alloc, code)
        }
    }
}
