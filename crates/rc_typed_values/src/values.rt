// Values with their types, and the conversions of numbers.
ghost use Rattle.std.specs.Prelude.{◌≡◌, option_map, IfOk, IfErr};
ghost use Rattle.rc_core.specs.Programs as p;
ghost use Rattle.rc_core.specs.Shapes.{ty_of, expr_of, place_of};
ghost use Rattle.rc_core.specs.Typing as typing;
ghost use Rattle.rc_deletes.specs.Judged.{Holds};
ghost use Rattle.rc_deletes.specs.Kinds.{sort_of_type};
ghost use Rattle.rc_deletes.specs.Values as rule;
ghost use Rattle.rc_typed_values.specs.Shapes.{typed_of, meant_of};
ghost use Rattle.rc_typed_values.specs.Stops.{StopsAt, IsRule};

use crate::kinds;
use crate::meanings::{Meant, Typed};
use crate::stop::{Stop, boxed, fails};
use rc_core::expr::{Expr, Place};
use rc_core::ty::{NumberType, Signedness, Ty};
use rc_core::type_of;
use rc_deletes::{Refusal, Sort};
use rc_syntax::tree::Spot;
use std::alloc::Global;

/// What computes a value, with the code in memory of its own.
///
/// # Errors
///
/// Out of memory.
pub fn typed(alloc: Global, line: u32, ty: Option<Ty>, code: Expr) -> Result<Typed, Stop>
    ensures ok { IfOk result (λ v. typed_of v ≡ record { line = line; ty = option_map ty_of ty; code = expr_of code }) }
    ensures err { IfErr result (λ s. s ≡ Stop.Memory) }
{
    let code = boxed(alloc, code)?;
    Ok(Typed { line, ty, code })
}

/// The value at a place.
fn read_place(alloc: Global, at: Spot, place: Box<Place>, ty: Ty) -> Result<Typed, Stop>
    ensures ok { IfOk result (λ v. rule.read_place at (sort_of_type (ty_of ty)) (place_of place.value) (ty_of ty) ≡ Holds (typed_of v)) }
    ensures err { IfErr result (StopsAt (rule.read_place at (sort_of_type (ty_of ty)) (place_of place.value) (ty_of ty))) }
{
    if kinds::is_struct(&ty) {
        return fails(at, Refusal::Mistyped);
    }
    let line = at.line;
    let code = Expr::Read {
        line,
        place: Box::into_inner(place),
    };
    typed(alloc, line, Some(kinds::value_type(ty)), code)
}

/// The value of a local.
fn read_local(alloc: Global, line: u32, local: u32, ty: Ty) -> Result<Typed, Stop>
    ensures ok { IfOk result (λ v. typed_of v ≡ rule.typed line (ty_of ty) (p.local line local)) }
    ensures err { IfErr result (λ s. s ≡ Stop.Memory) }
{
    let code = Expr::Local { line, local };
    typed(alloc, line, Some(kinds::value_type(ty)), code)
}

/// What an expression is where a value is wanted: a local or a place is read.
///
/// # Errors
///
/// It is a struct or an array field: the node is mistyped. Or out of memory.
pub fn as_value(alloc: Global, at: Spot, meant: Meant) -> Result<Typed, Stop>
    ensures ok { IfOk result (λ v. rule.as_value at (meant_of meant) ≡ Holds (typed_of v)) }
    ensures err { IfErr result (StopsAt (rule.as_value at (meant_of meant))) }
{
    match meant {
        Meant::Value(v) => Ok(v),
        Meant::Variable(local, ty) => read_local(alloc, at.line, local, ty),
        Meant::Place(place, ty) => read_place(alloc, at, place, ty),
        Meant::Array(_, _, _, _) => fails(at, Refusal::Mistyped),
    }
}

/// The code of a number, converted: a node more only where the type changes, at the line of the
/// value.
///
/// # Errors
///
/// Out of memory.
pub fn converted(
    alloc: Global,
    from: NumberType,
    to: NumberType,
    v: Typed,
) -> Result<Box<Expr>, Stop>
    ensures ok { IfOk result (λ e. expr_of e.value ≡ rule.converted from to (typed_of v)) }
    ensures err { IfErr result (λ s. s ≡ Stop.Memory) }
{
    match (from, to) {
        (NumberType::Int, NumberType::Int) => Ok(v.code),
        (NumberType::Unsigned, NumberType::Unsigned) => Ok(v.code),
        (NumberType::Char, NumberType::Char) => Ok(v.code),
        (_, _) => {
            let code = Expr::Convert {
                line: v.line,
                from,
                to,
                operand: v.code,
            };
            boxed(alloc, code)
        }
    }
}

/// What a number is computed in by itself (ISO C 6.3.1.1).
pub fn promoted(from: NumberType) -> Signedness
    ensures { result ≡ typing.promoted from }
{
    match from {
        NumberType::Int => Signedness::Signed,
        NumberType::Unsigned => Signedness::Unsigned,
        NumberType::Char => Signedness::Signed,
    }
}

/// What two numbers are computed in (ISO C 6.3.1.8).
pub fn met(a: NumberType, b: NumberType) -> Signedness
    ensures { result ≡ rule.met a b }
{
    match promoted(a) {
        Signedness::Signed => promoted(b),
        Signedness::Unsigned => Signedness::Unsigned,
    }
}

/// The code of a number in `int` or `unsigned`.
///
/// # Errors
///
/// Out of memory.
pub fn in_arithmetic(
    alloc: Global,
    from: NumberType,
    signedness: Signedness,
    v: Typed,
) -> Result<Box<Expr>, Stop>
    ensures ok { IfOk result (λ e. expr_of e.value ≡ rule.in_arithmetic from signedness (typed_of v)) }
    ensures err { IfErr result (λ s. s ≡ Stop.Memory) }
{
    converted(alloc, from, type_of(signedness), v)
}

/// The code of a number in its promoted type.
///
/// # Errors
///
/// Out of memory.
pub fn promoted_value(alloc: Global, from: NumberType, v: Typed) -> Result<Box<Expr>, Stop>
    ensures ok { IfOk result (λ e. expr_of e.value ≡ rule.promoted_value from (typed_of v)) }
    ensures err { IfErr result (λ s. s ≡ Stop.Memory) }
{
    in_arithmetic(alloc, from, promoted(from), v)
}

/// The code of a value where one of a type is wanted: an assigned value, an initialiser, an
/// argument or a returned value. None where it doesn't fit.
///
/// # Errors
///
/// Out of memory.
pub fn fitted(alloc: Global, wanted: &Ty, v: Typed) -> Result<Option<Box<Expr>>, Stop>
    ensures ok { IfOk result (λ e. rule.fitted (ty_of wanted.now) (typed_of v) ≡ option_map (λ b. expr_of b.value) e) }
    ensures err { IfErr result (λ s. s ≡ Stop.Memory) }
{
    match (kinds::sort_of_type(wanted), kinds::sort_of(&v.ty)) {
        (Sort::Number(to), Sort::Number(from)) => Ok(Some(converted(alloc, from, to, v)?)),
        (Sort::Region, Sort::Region) => Ok(Some(v.code)),
        (Sort::Region, Sort::Null) => Ok(Some(v.code)),
        (Sort::Pointer, Sort::Null) => Ok(Some(v.code)),
        (Sort::Pointer, Sort::Pointer) => {
            if kinds::is_of_type(wanted, &v.ty) {
                return Ok(Some(v.code));
            }
            Ok(None)
        }
        (_, _) => Ok(None),
    }
}

/// Whether a condition may look at values of a sort.
pub fn is_truthy(sort: Sort) -> bool
    ensures { result ≡ rule.is_truthy sort }
{
    matches!(sort, Sort::Number(_) | Sort::Region | Sort::Pointer)
}

/// What a condition looks at.
///
/// # Errors
///
/// It is the word `NULL`: the node is mistyped.
pub fn condition_rule(at: Spot, v: Typed) -> Result<Box<Expr>, Stop>
    ensures ok { IfOk result (λ e. rule.condition_rule at (typed_of v) ≡ Holds (expr_of e.value)) }
    ensures err { IfErr result (StopsAt (rule.condition_rule at (typed_of v))) }
    ensures no_memory { IfErr result IsRule }
{
    if is_truthy(kinds::sort_of(&v.ty)) {
        return Ok(v.code);
    }
    fails(at, Refusal::Mistyped)
}
