// Conditions and choices: `&&`, `||`, `!`, and `?` with `:`.
ghost use Rattle.std.specs.Prelude.{◌≡◌, IfOk, IfErr, true, ◌&&◌};
ghost use Rattle.rc_core.specs.Programs as p;
ghost use Rattle.rc_core.specs.Shapes.{expr_of};
ghost use Rattle.rc_core.specs.Types.{int};
ghost use Rattle.rc_core.specs.Typing as typing;
ghost use Rattle.rc_deletes.specs.Judged.{Holds};
ghost use Rattle.rc_deletes.specs.Kinds.{sort_of};
ghost use Rattle.rc_deletes.specs.Operators as rule;
ghost use Rattle.rc_deletes.specs.Values as values;
ghost use Rattle.rc_typed_values.specs.Shapes.{typed_of};
ghost use Rattle.rc_typed_values.specs.Stops.{StopsAt};

use crate::arithmetic::arithmetic_type;
use crate::comparisons::null_test;
use rc_core::expr::Expr;
use rc_core::ty::{NumberType, Ty};
use rc_deletes::{Refusal, Sort};
use rc_syntax::tree::Spot;
use rc_typed_values::{Stop, Typed, fails, in_arithmetic, is_truthy, met, sort_of, typed};
use std::alloc::Global;

/// Whether conditions may look at both values.
fn are_truthy(v: &Typed, w: &Typed) -> bool
    ensures { result ≡ (values.is_truthy (sort_of (typed_of v.now).ty) && values.is_truthy (sort_of (typed_of w.now).ty)) }
{
    is_truthy(sort_of(&v.ty)) && is_truthy(sort_of(&w.ty))
}

/// `&&` of two conditions.
pub(crate) fn conjunction(alloc: Global, at: Spot, v: Typed, w: Typed) -> Result<Typed, Stop>
    ensures ok { IfOk result (λ t. rule.conjunction at (typed_of v) (typed_of w) ≡ Holds (typed_of t)) }
    ensures err { IfErr result (StopsAt (rule.conjunction at (typed_of v) (typed_of w))) }
{
    if !are_truthy(&v, &w) {
        return fails(at, Refusal::Mistyped);
    }
    let line = at.line;
    let code = Expr::And {
        line,
        left: v.code,
        right: w.code,
    };
    typed(alloc, line, Some(Ty::Int), code)
}

/// `||` of two conditions.
pub(crate) fn disjunction(alloc: Global, at: Spot, v: Typed, w: Typed) -> Result<Typed, Stop>
    ensures ok { IfOk result (λ t. rule.disjunction at (typed_of v) (typed_of w) ≡ Holds (typed_of t)) }
    ensures err { IfErr result (StopsAt (rule.disjunction at (typed_of v) (typed_of w))) }
{
    if !are_truthy(&v, &w) {
        return fails(at, Refusal::Mistyped);
    }
    let line = at.line;
    let code = Expr::Or {
        line,
        left: v.code,
        right: w.code,
    };
    typed(alloc, line, Some(Ty::Int), code)
}

/// A choice between two numbers.
fn chosen(
    alloc: Global,
    line: u32,
    test: Box<Expr>,
    a: NumberType,
    v: Typed,
    b: NumberType,
    w: Typed,
) -> Result<Typed, Stop>
    ensures ok { IfOk result (λ t. typed_of t ≡ rule.result line (typing.arithmetic (values.met a b)) (p.choose line (expr_of test.value) (values.in_arithmetic a (values.met a b) (typed_of v)) (values.in_arithmetic b (values.met a b) (typed_of w)))) }
    ensures err { IfErr result (λ s. s ≡ Stop.Memory) }
{
    let signedness = met(a, b);
    let yes = in_arithmetic(alloc, a, signedness, v)?;
    let no = in_arithmetic(alloc, b, signedness, w)?;
    let code = Expr::Choose {
        line,
        test,
        yes,
        no,
    };
    typed(alloc, line, Some(arithmetic_type(signedness)), code)
}

/// A choice by a condition.
fn choice(alloc: Global, at: Spot, test: Box<Expr>, v: Typed, w: Typed) -> Result<Typed, Stop>
    ensures ok { IfOk result (λ t. rule.choice at true (expr_of test.value) (sort_of (typed_of v).ty) (typed_of v) (sort_of (typed_of w).ty) (typed_of w) ≡ Holds (typed_of t)) }
    ensures err { IfErr result (StopsAt (rule.choice at true (expr_of test.value) (sort_of (typed_of v).ty) (typed_of v) (sort_of (typed_of w).ty) (typed_of w))) }
{
    match (sort_of(&v.ty), sort_of(&w.ty)) {
        (Sort::Number(a), Sort::Number(b)) => chosen(alloc, at.line, test, a, v, b, w),
        (_, _) => fails(at, Refusal::Mistyped),
    }
}

/// `?` and `:`, whose arms are numbers (ISO C 6.5.15).
///
/// # Errors
///
/// It doesn't take such values: the node is mistyped. Or out of memory.
pub fn conditional_rule(
    alloc: Global,
    at: Spot,
    test: Typed,
    v: Typed,
    w: Typed,
) -> Result<Typed, Stop>
    ensures ok { IfOk result (λ t. rule.conditional_rule at (typed_of test) (typed_of v) (typed_of w) ≡ Holds (typed_of t)) }
    ensures err { IfErr result (StopsAt (rule.conditional_rule at (typed_of test) (typed_of v) (typed_of w))) }
{
    if is_truthy(sort_of(&test.ty)) {
        return choice(alloc, at, test.code, v, w);
    }
    fails(at, Refusal::Mistyped)
}

/// Whether a number is 0.
fn is_zero(alloc: Global, line: u32, v: Typed) -> Result<Typed, Stop>
    ensures ok { IfOk result (λ t. typed_of t ≡ rule.result line int (p.not_zero line (typed_of v).code)) }
    ensures err { IfErr result (λ s. s ≡ Stop.Memory) }
{
    let code = Expr::Not {
        line,
        operand: v.code,
    };
    typed(alloc, line, Some(Ty::Int), code)
}

/// `!` before a number, a region or a pointer.
pub(crate) fn not_rule(alloc: Global, at: Spot, v: Typed) -> Result<Typed, Stop>
    ensures ok { IfOk result (λ t. rule.not_rule at (sort_of (typed_of v).ty) (typed_of v) ≡ Holds (typed_of t)) }
    ensures err { IfErr result (StopsAt (rule.not_rule at (sort_of (typed_of v).ty) (typed_of v))) }
{
    match sort_of(&v.ty) {
        Sort::Number(_) => is_zero(alloc, at.line, v),
        Sort::Region => null_test(alloc, at.line, true, v),
        Sort::Pointer => null_test(alloc, at.line, true, v),
        _ => fails(at, Refusal::Mistyped),
    }
}
