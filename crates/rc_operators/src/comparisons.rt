// Comparisons: of numbers, pointers and regions, and of these with the word `NULL`.
ghost use Rattle.std.specs.Prelude.{◌≡◌, IfOk, IfErr};
ghost use Rattle.rc_core.specs.Programs as p;
ghost use Rattle.rc_core.specs.Types.{int};
ghost use Rattle.rc_deletes.specs.Judged.{Holds};
ghost use Rattle.rc_deletes.specs.Kinds.{sort_of, same_types};
ghost use Rattle.rc_deletes.specs.Operators as rule;
ghost use Rattle.rc_deletes.specs.declared.sort.Sort.TheVariants.{Pointer};
ghost use Rattle.rc_typed_values.specs.Shapes.{typed_of};
ghost use Rattle.rc_typed_values.specs.Stops.{StopsAt};

use crate::arithmetic::computation;
use rc_core::expr::Expr;
use rc_core::operators::Operator;
use rc_core::ty::Ty;
use rc_deletes::{Refusal, Sort};
use rc_syntax::tree::Spot;
use rc_typed_values::{Stop, Typed, fails, same_types, sort_of, typed};
use std::alloc::Global;

/// The operator `==` or `!=` on numbers, as `wanted` says.
fn equality_operator(wanted: bool) -> Operator
    ensures { result ≡ rule.equality_operator wanted }
{
    if wanted {
        return Operator::Equal;
    }
    Operator::NotEqual
}

/// Whether two pointers or regions are the same, as `wanted` says.
fn same(alloc: Global, line: u32, wanted: bool, v: Typed, w: Typed) -> Result<Typed, Stop>
    ensures ok { IfOk result (λ t. typed_of t ≡ rule.result line int (p.same line wanted (typed_of v).code (typed_of w).code)) }
    ensures err { IfErr result (λ s. s ≡ Stop.Memory) }
{
    let code = Expr::Same {
        line,
        wanted,
        left: v.code,
        right: w.code,
    };
    typed(alloc, line, Some(Ty::Int), code)
}

/// Whether a pointer or region is null, as `wanted` says.
pub(crate) fn null_test(alloc: Global, line: u32, wanted: bool, v: Typed) -> Result<Typed, Stop>
    ensures ok { IfOk result (λ t. typed_of t ≡ rule.result line int (p.is_null line wanted (typed_of v).code)) }
    ensures err { IfErr result (λ s. s ≡ Stop.Memory) }
{
    let code = Expr::IsNull {
        line,
        wanted,
        operand: v.code,
    };
    typed(alloc, line, Some(Ty::Int), code)
}

/// Two pointers are compared, which have one type.
fn same_pointers(alloc: Global, at: Spot, wanted: bool, v: Typed, w: Typed) -> Result<Typed, Stop>
    ensures ok { IfOk result (λ t. rule.equality at wanted (same_types (typed_of v).ty (typed_of w).ty) Pointer (typed_of v) Pointer (typed_of w) ≡ Holds (typed_of t)) }
    ensures err { IfErr result (StopsAt (rule.equality at wanted (same_types (typed_of v).ty (typed_of w).ty) Pointer (typed_of v) Pointer (typed_of w))) }
{
    if same_types(&v.ty, &w.ty) {
        return same(alloc, at.line, wanted, v, w);
    }
    fails(at, Refusal::Mistyped)
}

/// `==` and `!=`: of two numbers, two pointers of one type, two regions, or one of these beside the
/// word `NULL`.
pub(crate) fn equality(
    alloc: Global,
    at: Spot,
    wanted: bool,
    v: Typed,
    w: Typed,
) -> Result<Typed, Stop>
    ensures ok { IfOk result (λ t. rule.equality_of at wanted (typed_of v) (typed_of w) ≡ Holds (typed_of t)) }
    ensures err { IfErr result (StopsAt (rule.equality_of at wanted (typed_of v) (typed_of w))) }
{
    let line = at.line;
    match (sort_of(&v.ty), sort_of(&w.ty)) {
        (Sort::Number(a), Sort::Number(b)) => {
            computation(alloc, line, equality_operator(wanted), a, v, b, w)
        }
        (Sort::Pointer, Sort::Pointer) => same_pointers(alloc, at, wanted, v, w),
        (Sort::Region, Sort::Region) => same(alloc, line, wanted, v, w),
        (Sort::Pointer, Sort::Null) => null_test(alloc, line, wanted, v),
        (Sort::Region, Sort::Null) => null_test(alloc, line, wanted, v),
        (Sort::Null, Sort::Pointer) => null_test(alloc, line, wanted, w),
        (Sort::Null, Sort::Region) => null_test(alloc, line, wanted, w),
        (_, _) => fails(at, Refusal::Mistyped),
    }
}
