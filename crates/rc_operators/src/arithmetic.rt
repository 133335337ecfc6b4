// Arithmetic: what operators on numbers compute in, and the type of what they give.
ghost use Rattle.std.specs.Prelude.{◌≡◌, IfOk, IfErr};
ghost use Rattle.rc_core.specs.Programs as p;
ghost use Rattle.rc_core.specs.Shapes.{ty_of};
ghost use Rattle.rc_core.specs.Typing as typing;
ghost use Rattle.rc_deletes.specs.Judged.{Holds};
ghost use Rattle.rc_deletes.specs.Kinds.{sort_of};
ghost use Rattle.rc_deletes.specs.Operators as rule;
ghost use Rattle.rc_deletes.specs.Values as values;
ghost use Rattle.rc_typed_values.specs.Shapes.{typed_of};
ghost use Rattle.rc_typed_values.specs.Stops.{StopsAt};

use rc_core::expr::Expr;
use rc_core::operators::{Operator, UnaryOperator};
use rc_core::ty::{NumberType, Signedness, Ty};
use rc_core::type_of;
use rc_deletes::{Refusal, Sort};
use rc_syntax::tree::{CastType, Spot};
use rc_typed_values::{
    Stop, Typed, converted, fails, in_arithmetic, met, promoted, promoted_value, sort_of, typed,
};
use std::alloc::Global;

/// A number's type as a type.
fn number_type(kind: NumberType) -> Ty
    ensures { ty_of result ≡ typing.number kind }
{
    match kind {
        NumberType::Int => Ty::Int,
        NumberType::Unsigned => Ty::Unsigned,
        NumberType::Char => Ty::Char,
    }
}

/// The type of a value that was computed in `int` or `unsigned`.
pub fn arithmetic_type(signedness: Signedness) -> Ty
    ensures { ty_of result ≡ typing.arithmetic signedness }
{
    number_type(type_of(signedness))
}

/// Whether an operator is a shift.
pub(crate) fn is_shift(operator: Operator) -> bool
    ensures { result ≡ typing.is_shift operator }
{
    matches!(operator, Operator::ShiftLeft | Operator::ShiftRight)
}

/// Whether an operator compares.
fn is_comparison(operator: Operator) -> bool
    ensures { result ≡ typing.is_comparison operator }
{
    matches!(
        operator,
        Operator::Less
            | Operator::Greater
            | Operator::LessEqual
            | Operator::GreaterEqual
            | Operator::Equal
            | Operator::NotEqual
    )
}

/// The type of what an operator gives.
fn result_type(operator: Operator, signedness: Signedness) -> Ty
    ensures { ty_of result ≡ typing.result_type operator signedness }
{
    if is_comparison(operator) {
        return Ty::Int;
    }
    arithmetic_type(signedness)
}

/// What an operator computes in: a shift looks at its left side alone (ISO C 6.5.7).
pub(crate) fn computed_in(shift: bool, left: NumberType, right: NumberType) -> Signedness
    ensures { result ≡ rule.computed_in shift left right }
{
    if shift {
        return promoted(left);
    }
    met(left, right)
}

/// What the right side of an operator is converted to: that of a shift keeps its promoted type.
pub(crate) fn right_in(shift: bool, left: NumberType, right: NumberType) -> Signedness
    ensures { result ≡ rule.right_in shift left right }
{
    if shift {
        return promoted(right);
    }
    met(left, right)
}

/// An operator between two numbers.
pub(crate) fn computation(
    alloc: Global,
    line: u32,
    operator: Operator,
    a: NumberType,
    v: Typed,
    b: NumberType,
    w: Typed,
) -> Result<Typed, Stop>
    ensures ok { IfOk result (λ t. typed_of t ≡ rule.computation line operator a (typed_of v) b (typed_of w)) }
    ensures err { IfErr result (λ s. s ≡ Stop.Memory) }
{
    let shift = is_shift(operator);
    let signedness = computed_in(shift, a, b);
    let left = in_arithmetic(alloc, a, signedness, v)?;
    let right = in_arithmetic(alloc, b, right_in(shift, a, b), w)?;
    let code = Expr::Binary {
        line,
        operator,
        signedness,
        left,
        right,
    };
    typed(alloc, line, Some(result_type(operator, signedness)), code)
}

/// An operator on numbers alone.
pub(crate) fn numbers(
    alloc: Global,
    at: Spot,
    operator: Operator,
    v: Typed,
    w: Typed,
) -> Result<Typed, Stop>
    ensures ok { IfOk result (λ t. rule.numbers_of at operator (typed_of v) (typed_of w) ≡ Holds (typed_of t)) }
    ensures err { IfErr result (StopsAt (rule.numbers_of at operator (typed_of v) (typed_of w))) }
{
    match (sort_of(&v.ty), sort_of(&w.ty)) {
        (Sort::Number(a), Sort::Number(b)) => computation(alloc, at.line, operator, a, v, b, w),
        (_, _) => fails(at, Refusal::Mistyped),
    }
}

/// `-`, `+` or `~` before a number.
fn signed(
    alloc: Global,
    line: u32,
    operator: UnaryOperator,
    a: NumberType,
    v: Typed,
) -> Result<Typed, Stop>
    ensures ok { IfOk result (λ t. typed_of t ≡ rule.result line (typing.arithmetic (typing.promoted a)) (p.unary line operator (typing.promoted a) (values.promoted_value a (typed_of v)))) }
    ensures err { IfErr result (λ s. s ≡ Stop.Memory) }
{
    let signedness = promoted(a);
    let operand = promoted_value(alloc, a, v)?;
    let code = Expr::Unary {
        line,
        operator,
        signedness,
        operand,
    };
    typed(alloc, line, Some(arithmetic_type(signedness)), code)
}

/// `-`, `+` and `~` (ISO C 6.5.3.3).
pub(crate) fn sign_rule(
    alloc: Global,
    at: Spot,
    operator: UnaryOperator,
    v: Typed,
) -> Result<Typed, Stop>
    ensures ok { IfOk result (λ t. rule.sign_rule at operator (sort_of (typed_of v).ty) (typed_of v) ≡ Holds (typed_of t)) }
    ensures err { IfErr result (StopsAt (rule.sign_rule at operator (sort_of (typed_of v).ty) (typed_of v))) }
{
    match sort_of(&v.ty) {
        Sort::Number(a) => signed(alloc, at.line, operator, a, v),
        _ => fails(at, Refusal::Mistyped),
    }
}

/// The type that a cast converts to.
pub fn cast_type(to: CastType) -> NumberType
    ensures { result ≡ rule.cast_type to }
{
    match to {
        CastType::Int => NumberType::Int,
        CastType::Unsigned => NumberType::Unsigned,
        CastType::Char => NumberType::Char,
    }
}

/// A cast of a number (ISO C 6.5.4).
///
/// # Errors
///
/// It stands before something else: the node is mistyped. Or out of memory.
pub fn cast_rule(alloc: Global, at: Spot, to: NumberType, v: Typed) -> Result<Typed, Stop>
    ensures ok { IfOk result (λ t. rule.cast_rule at to (sort_of (typed_of v).ty) (typed_of v) ≡ Holds (typed_of t)) }
    ensures err { IfErr result (StopsAt (rule.cast_rule at to (sort_of (typed_of v).ty) (typed_of v))) }
{
    match sort_of(&v.ty) {
        Sort::Number(from) => {
            let code = converted(alloc, from, to, v)?;
            Ok(Typed {
                line: at.line,
                ty: Some(number_type(to)),
                code,
            })
        }
        _ => fails(at, Refusal::Mistyped),
    }
}
