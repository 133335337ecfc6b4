// Which rule an operator has.
ghost use Rattle.std.specs.Prelude.{◌≡◌, IfOk, IfErr};
ghost use Rattle.rc_deletes.specs.Judged.{Holds};
ghost use Rattle.rc_deletes.specs.Operators as rule;
ghost use Rattle.rc_typed_values.specs.Shapes.{typed_of, meant_of};
ghost use Rattle.rc_typed_values.specs.Stops.{StopsAt};

use crate::arithmetic::{numbers, sign_rule};
use crate::comparisons::equality;
use crate::conditions::{conjunction, disjunction, not_rule};
use crate::pointers::{dereference_rule, difference, sum};
use rc_core::operators::{Operator, UnaryOperator};
use rc_deletes::Refusal;
use rc_syntax::tree::{BinaryOp, Spot, UnaryOp};
use rc_typed_values::{Meant, Stop, Typed, fails};
use std::alloc::Global;

/// An operator between two values (ISO C 6.5.5 to 6.5.14).
///
/// # Errors
///
/// It doesn't take such values: the node is mistyped. Or out of memory.
pub fn binary_rule(alloc: Global, at: Spot, op: BinaryOp, v: Typed, w: Typed) -> Result<Typed, Stop>
    ensures ok { IfOk result (λ t. rule.binary_rule at op (typed_of v) (typed_of w) ≡ Holds (typed_of t)) }
    ensures err { IfErr result (StopsAt (rule.binary_rule at op (typed_of v) (typed_of w))) }
{
    match op {
        BinaryOp::LogicalOr => disjunction(alloc, at, v, w),
        BinaryOp::LogicalAnd => conjunction(alloc, at, v, w),
        BinaryOp::BitOr => numbers(alloc, at, Operator::Or, v, w),
        BinaryOp::BitXor => numbers(alloc, at, Operator::Xor, v, w),
        BinaryOp::BitAnd => numbers(alloc, at, Operator::And, v, w),
        BinaryOp::Equal => equality(alloc, at, true, v, w),
        BinaryOp::NotEqual => equality(alloc, at, false, v, w),
        BinaryOp::Less => numbers(alloc, at, Operator::Less, v, w),
        BinaryOp::Greater => numbers(alloc, at, Operator::Greater, v, w),
        BinaryOp::LessEqual => numbers(alloc, at, Operator::LessEqual, v, w),
        BinaryOp::GreaterEqual => numbers(alloc, at, Operator::GreaterEqual, v, w),
        BinaryOp::ShiftLeft => numbers(alloc, at, Operator::ShiftLeft, v, w),
        BinaryOp::ShiftRight => numbers(alloc, at, Operator::ShiftRight, v, w),
        BinaryOp::Add => sum(alloc, at, v, w),
        BinaryOp::Subtract => difference(alloc, at, v, w),
        BinaryOp::Multiply => numbers(alloc, at, Operator::Multiply, v, w),
        BinaryOp::Divide => numbers(alloc, at, Operator::Divide, v, w),
        BinaryOp::Remainder => numbers(alloc, at, Operator::Remainder, v, w),
    }
}

/// An operator before a value (ISO C 6.5.3). `&` stands before no value.
///
/// # Errors
///
/// It doesn't take such a value: the node is mistyped. Or out of memory.
pub fn unary_rule(alloc: Global, at: Spot, op: UnaryOp, v: Typed) -> Result<Meant, Stop>
    ensures ok { IfOk result (λ m. rule.unary_rule at op (typed_of v) ≡ Holds (meant_of m)) }
    ensures err { IfErr result (StopsAt (rule.unary_rule at op (typed_of v))) }
{
    match op {
        UnaryOp::Minus => Ok(Meant::Value(sign_rule(alloc, at, UnaryOperator::Negate, v)?)),
        UnaryOp::Plus => Ok(Meant::Value(sign_rule(alloc, at, UnaryOperator::Plus, v)?)),
        UnaryOp::Not => Ok(Meant::Value(not_rule(alloc, at, v)?)),
        UnaryOp::Complement => {
            Ok(Meant::Value(sign_rule(alloc, at, UnaryOperator::Complement, v)?))
        }
        UnaryOp::Dereference => dereference_rule(alloc, at, v),
        UnaryOp::Address => fails(at, Refusal::Mistyped),
    }
}
