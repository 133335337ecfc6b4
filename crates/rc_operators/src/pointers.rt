// Pointers: steps, what they lead to, and addresses.
ghost use Rattle.std.specs.Prelude.{◌≡◌, IfOk, IfErr, Some};
ghost use Rattle.rc_core.specs.Programs as p;
ghost use Rattle.rc_core.specs.Shapes.{ty_of, expr_of, place_of};
ghost use Rattle.rc_core.specs.Types.{pointer as pointer_to};
ghost use Rattle.rc_core.specs.declared.ty.Note.TheVariants.{Plain};
ghost use Rattle.rc_core.specs.declared.operators.Direction.TheVariants.{Forward};
ghost use Rattle.rc_deletes.specs.Judged.{Holds};
ghost use Rattle.rc_deletes.specs.Kinds.{sort_of};
ghost use Rattle.rc_deletes.specs.Operators as rule;
ghost use Rattle.rc_deletes.specs.Values as values;
ghost use Rattle.rc_typed_values.specs.Shapes.{typed_of, meant_of};
ghost use Rattle.rc_typed_values.specs.Stops.{StopsAt};

use crate::arithmetic::computation;
use rc_core::expr::{Expr, Place};
use rc_core::operators::{Direction, Operator};
use rc_core::ty::{Note, NumberType, Ty};
use rc_deletes::{Refusal, Sort};
use rc_syntax::tree::Spot;
use rc_typed_values::{Meant, Stop, Typed, boxed, fails, promoted_value, sort_of, typed};
use std::alloc::Global;

/// A pointer that is stepped by a number, which keeps the pointer's type.
fn stepped(
    alloc: Global,
    line: u32,
    direction: Direction,
    v: Typed,
    b: NumberType,
    w: Typed,
) -> Result<Typed, Stop>
    ensures ok { IfOk result (λ t. typed_of t ≡ record { line = line; ty = (typed_of v).ty; code = p.step line direction (typed_of v).code (values.promoted_value b (typed_of w)) }) }
    ensures err { IfErr result (λ s. s ≡ Stop.Memory) }
{
    let number = promoted_value(alloc, b, w)?;
    let Typed { line: _, ty, code } = v;
    let code = Expr::Step {
        line,
        direction,
        pointer: code,
        number,
    };
    typed(alloc, line, ty, code)
}

/// A pointer that stands after the number that it is stepped by.
fn stepped_from(alloc: Global, line: u32, a: NumberType, v: Typed, w: Typed) -> Result<Typed, Stop>
    ensures ok { IfOk result (λ t. typed_of t ≡ record { line = line; ty = (typed_of w).ty; code = p.step_from line (values.promoted_value a (typed_of v)) (typed_of w).code }) }
    ensures err { IfErr result (λ s. s ≡ Stop.Memory) }
{
    let number = promoted_value(alloc, a, v)?;
    let Typed { line: _, ty, code } = w;
    let code = Expr::StepFrom {
        line,
        number,
        pointer: code,
    };
    typed(alloc, line, ty, code)
}

/// `+`: of two numbers, or of a pointer and a number on either side.
pub(crate) fn sum(alloc: Global, at: Spot, v: Typed, w: Typed) -> Result<Typed, Stop>
    ensures ok { IfOk result (λ t. rule.sum at (sort_of (typed_of v).ty) (typed_of v) (sort_of (typed_of w).ty) (typed_of w) ≡ Holds (typed_of t)) }
    ensures err { IfErr result (StopsAt (rule.sum at (sort_of (typed_of v).ty) (typed_of v) (sort_of (typed_of w).ty) (typed_of w))) }
{
    match (sort_of(&v.ty), sort_of(&w.ty)) {
        (Sort::Number(a), Sort::Number(b)) => computation(
            alloc,
            at.line,
            Operator::Add,
            a,
            v,
            b,
            w,
        ),
        (Sort::Pointer, Sort::Number(b)) => stepped(alloc, at.line, Direction::Forward, v, b, w),
        (Sort::Number(a), Sort::Pointer) => stepped_from(alloc, at.line, a, v, w),
        (_, _) => fails(at, Refusal::Mistyped),
    }
}

/// `-`: of two numbers, or of a number from a pointer.
pub(crate) fn difference(alloc: Global, at: Spot, v: Typed, w: Typed) -> Result<Typed, Stop>
    ensures ok { IfOk result (λ t. rule.difference at (sort_of (typed_of v).ty) (typed_of v) (sort_of (typed_of w).ty) (typed_of w) ≡ Holds (typed_of t)) }
    ensures err { IfErr result (StopsAt (rule.difference at (sort_of (typed_of v).ty) (typed_of v) (sort_of (typed_of w).ty) (typed_of w))) }
{
    match (sort_of(&v.ty), sort_of(&w.ty)) {
        (Sort::Number(a), Sort::Number(b)) => computation(
            alloc,
            at.line,
            Operator::Subtract,
            a,
            v,
            b,
            w,
        ),
        (Sort::Pointer, Sort::Number(b)) => stepped(alloc, at.line, Direction::Backward, v, b, w),
        (_, _) => fails(at, Refusal::Mistyped),
    }
}

/// `*` before a pointer: what it leads to.
pub(crate) fn dereference_rule(alloc: Global, at: Spot, v: Typed) -> Result<Meant, Stop>
    ensures ok { IfOk result (λ m. rule.dereference_rule at (typed_of v).ty (typed_of v).code ≡ Holds (meant_of m)) }
    ensures err { IfErr result (StopsAt (rule.dereference_rule at (typed_of v).ty (typed_of v).code)) }
{
    let Typed { line: _, ty, code } = v;
    match ty {
        Some(Ty::Pointer(_, target)) => {
            let place = pointed(alloc, code)?;
            Ok(Meant::Place(place, Box::into_inner(target)))
        }
        _ => fails(at, Refusal::Mistyped),
    }
}

/// The element that a pointer leads to.
///
/// # Errors
///
/// Out of memory.
#[tactic(auto, using(crate::proofs::Paths::pointed_here))]
pub fn pointed(alloc: Global, pointer: Box<Expr>) -> Result<Box<Place>, Stop>
    ensures ok { IfOk result (λ place. place_of place.value ≡ p.pointed (expr_of pointer.value) p.here) }
    ensures err { IfErr result (λ s. s ≡ Stop.Memory) }
{
    let path = Vec::new(alloc);
    boxed(alloc, Place::Pointed { pointer, path })
}

/// The address of a global.
fn address_of_global(alloc: Global, line: u32, global: u32, ty: Ty) -> Result<Typed, Stop>
    ensures ok { IfOk result (λ v. typed_of v ≡ rule.result line (pointer_to Plain (ty_of ty)) (p.address line global)) }
    ensures err { IfErr result (λ s. s ≡ Stop.Memory) }
{
    let target = boxed(alloc, ty)?;
    let code = Expr::Address { line, global };
    typed(alloc, line, Some(Ty::Pointer(Note::Plain, target)), code)
}

/// The address of an element that a pointer leads to.
fn address_of_element(
    alloc: Global,
    line: u32,
    pointer: Box<Expr>,
    index: Box<Expr>,
    ty: Ty,
) -> Result<Typed, Stop>
    ensures ok { IfOk result (λ v. typed_of v ≡ rule.result line (pointer_to Plain (ty_of ty)) (p.step line Forward (expr_of pointer.value) (expr_of index.value))) }
    ensures err { IfErr result (λ s. s ≡ Stop.Memory) }
{
    let target = boxed(alloc, ty)?;
    let code = Expr::Step {
        line,
        direction: Direction::Forward,
        pointer,
        number: index,
    };
    typed(alloc, line, Some(Ty::Pointer(Note::Plain, target)), code)
}

#[tactic(auto, using(crate::proofs::Paths::global_address, crate::proofs::Paths::global_without, crate::proofs::Paths::pointed_without, crate::proofs::Paths::indexed_address, crate::proofs::Paths::indexed_without))]
fn address_of_place(alloc: Global, at: Spot, place: Box<Place>, ty: Ty) -> Result<Typed, Stop>
    ensures ok { IfOk result (λ v. rule.address_rule at (values.a_place (place_of place.value) (ty_of ty)) ≡ Holds (typed_of v)) }
    ensures err { IfErr result (StopsAt (rule.address_rule at (values.a_place (place_of place.value) (ty_of ty)))) }
{
    match Box::into_inner(place) {
        Place::Global { global, path } => {
            if path.is_empty() {
                return address_of_global(alloc, at.line, global, ty);
            }
            fails(at, Refusal::Mistyped)
        }
        Place::Pointed { .. } => fails(at, Refusal::Mistyped),
        Place::Indexed {
            pointer,
            index,
            path,
        } => {
            if path.is_empty() {
                return address_of_element(alloc, at.line, pointer, index, ty);
            }
            fails(at, Refusal::Mistyped)
        }
    }
}

/// `&` before a global that is no array, or an element that a pointer leads to.
///
/// # Errors
///
/// It stands before something else: the node is mistyped. Or out of memory.
pub fn address_rule(alloc: Global, at: Spot, meant: Meant) -> Result<Typed, Stop>
    ensures ok { IfOk result (λ v. rule.address_rule at (meant_of meant) ≡ Holds (typed_of v)) }
    ensures err { IfErr result (StopsAt (rule.address_rule at (meant_of meant))) }
{
    match meant {
        Meant::Place(place, ty) => address_of_place(alloc, at, place, ty),
        _ => fails(at, Refusal::Mistyped),
    }
}
