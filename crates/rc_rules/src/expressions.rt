// The rules of expressions, one node at a time.
ghost use Rattle.std.specs.Prelude.{◌≡◌, pos, option_map, IfOk, IfErr, Option, Some, None, negsuc};
ghost use Rattle.rc_core.specs.Programs as p;
ghost use Rattle.rc_core.specs.Shapes.{ty_of, expr_of, place_of};
ghost use Rattle.rc_core.specs.Types.{int, char, pointer};
ghost use Rattle.rc_core.specs.declared.ty.Note.TheVariants.{Plain};
ghost use Rattle.rc_deletes.specs.Expressions as rule;
ghost use Rattle.rc_deletes.specs.Judged.{Holds, with_part};
ghost use Rattle.rc_deletes.specs.Operators as operator;
ghost use Rattle.rc_deletes.specs.Scopes.{a_global};
ghost use Rattle.rc_deletes.specs.Values as values;
ghost use Rattle.rc_typed_values.specs.Shapes.{typed_of, meant_of};
ghost use Rattle.rc_typed_values.specs.Stops.{StopsAt};
ghost use Rattle.rc_rules.specs.Shapes.{meaning_of};

use crate::meanings::Meaning;
use crate::places::step_inward;
use rc_core::expr::{Expr, PathStep, Place};
use rc_core::ty::{Note, Signedness, Ty};
use rc_deletes::{Refusal, Sort};
use rc_operators::{address_rule, arithmetic_type, unary_rule};
use rc_syntax::tree::{Spot, UnaryOp};
use rc_typed_values::{
    Meant, Stop, Typed, as_value, boxed, copy_of, fails, promoted_value, sort_of, typed,
};
use std::alloc::Global;

/// Whether a number is `unsigned`: it says so, or is past the greatest `int`.
pub fn signedness(is_unsigned: bool, value: u32) -> Signedness
    ensures { result ≡ rule.signedness is_unsigned value }
{
    if is_unsigned {
        return Signedness::Unsigned;
    }
    if value < 2_147_483_648 {
        return Signedness::Signed;
    }
    Signedness::Unsigned
}

/// A number that is written.
///
/// # Errors
///
/// Out of memory.
pub fn number_value(
    alloc: Global,
    at: Spot,
    signedness: Signedness,
    value: u32,
) -> Result<Typed, Stop>
    ensures ok { IfOk result (λ v. typed_of v ≡ rule.number_value at signedness value) }
    ensures err { IfErr result (λ s. s ≡ Stop.Memory) }
{
    let line = at.line;
    let code = Expr::Constant {
        line,
        signedness,
        value: value as i64,
    };
    typed(alloc, line, Some(arithmetic_type(signedness)), code)
}

/// The pointer to the first byte of the string literal with this number.
///
/// # Errors
///
/// Out of memory.
pub fn string_value(alloc: Global, at: Spot, string: u32) -> Result<Typed, Stop>
    ensures ok { IfOk result (λ v. typed_of v ≡ operator.result at.line (pointer Plain char) (p.string at.line string)) }
    ensures err { IfErr result (λ s. s ≡ Stop.Memory) }
{
    let line = at.line;
    let target = boxed(alloc, Ty::Char)?;
    let code = Expr::Str { line, string };
    typed(alloc, line, Some(Ty::Pointer(Note::Plain, target)), code)
}

/// The word `NULL`, which has no type of its own.
///
/// # Errors
///
/// Out of memory.
pub fn null_value(alloc: Global, at: Spot) -> Result<Typed, Stop>
    ensures ok { IfOk result (λ v. typed_of v ≡ record { line = at.line; ty = None; code = p.null at.line }) }
    ensures err { IfErr result (λ s. s ≡ Stop.Memory) }
{
    typed(alloc, at.line, None, Expr::Null { line: at.line })
}

/// The word `EOF`: the `int` -1.
///
/// # Errors
///
/// Out of memory.
pub fn eof_value(alloc: Global, at: Spot) -> Result<Typed, Stop>
    ensures ok { IfOk result (λ v. typed_of v ≡ operator.result at.line int (p.constant at.line Signedness.Signed (negsuc 0))) }
    ensures err { IfErr result (λ s. s ≡ Stop.Memory) }
{
    let code = Expr::Constant {
        line: at.line,
        signedness: Signedness::Signed,
        value: -1,
    };
    typed(alloc, at.line, Some(Ty::Int), code)
}

/// A global array: the pointer to its first element.
fn array_value(alloc: Global, line: u32, global: u32, ty: &Ty) -> Result<Typed, Stop>
    ensures ok { IfOk result (λ v. typed_of v ≡ operator.result line (pointer Plain (ty_of ty.now)) (p.address line global)) }
    ensures err { IfErr result (λ s. s ≡ Stop.Memory) }
{
    let element = copy_of(alloc, ty)?;
    let target = boxed(alloc, element)?;
    let code = Expr::Address { line, global };
    typed(alloc, line, Some(Ty::Pointer(Note::Plain, target)), code)
}

/// A global that is no array.
#[tactic(auto, using(crate::proofs::Paths::global_here))]
fn global_place(alloc: Global, global: u32) -> Result<Box<Place>, Stop>
    ensures ok { IfOk result (λ place. place_of place.value ≡ p.global global p.here) }
    ensures err { IfErr result (λ s. s ≡ Stop.Memory) }
{
    let path = Vec::new(alloc);
    boxed(alloc, Place::Global { global, path })
}

/// A name that stands for a global.
fn global_meant(
    alloc: Global,
    at: Spot,
    global: u32,
    ty: &Ty,
    length: Option<u32>,
) -> Result<Meant, Stop>
    ensures ok { IfOk result (λ m. rule.name_rule at (Some (a_global global (ty_of ty.now) length)) ≡ Holds (meant_of m)) }
    ensures err { IfErr result (λ s. s ≡ Stop.Memory) }
{
    match length {
        None => {
            let ty = copy_of(alloc, ty)?;
            Ok(Meant::Place(global_place(alloc, global)?, ty))
        }
        Some(_) => Ok(Meant::Value(array_value(alloc, at.line, global, ty)?)),
    }
}

/// A name in an expression: a global array is the pointer to its first element.
///
/// # Errors
///
/// The name is unknown, or that of a function: the node is mistyped. Or out of memory.
pub fn name_rule(alloc: Global, at: Spot, meaning: Option<&Meaning>) -> Result<Meant, Stop>
    ensures ok { IfOk result (λ m. rule.name_rule at (option_map (λ m. meaning_of m.now) meaning.entry) ≡ Holds (meant_of m)) }
    ensures err { IfErr result (StopsAt (rule.name_rule at (option_map (λ m. meaning_of m.now) meaning.entry))) }
{
    match meaning {
        None => fails(at, Refusal::Unknown),
        Some(Meaning::Local(local, ty)) => {
            let ty = copy_of(alloc, ty)?;
            Ok(Meant::Variable(*local, ty))
        }
        Some(Meaning::Global(global, ty, length)) => global_meant(alloc, at, *global, ty, *length),
        Some(Meaning::Function(_, _)) => fails(at, Refusal::Mistyped),
        Some(Meaning::Builtin(_)) => fails(at, Refusal::Mistyped),
    }
}

/// What an index is applied to: an array field, or a value.
///
/// # Errors
///
/// It is a struct: the node is mistyped. Or out of memory.
pub fn indexed_part(alloc: Global, at: Spot, meant: Meant) -> Result<Meant, Stop>
    ensures ok { IfOk result (λ m. rule.indexed_part at (meant_of meant) ≡ Holds (meant_of m)) }
    ensures err { IfErr result (StopsAt (rule.indexed_part at (meant_of meant))) }
{
    match meant {
        Meant::Array(place, structure, field, ty) => {
            Ok(Meant::Array(place, structure, field, ty))
        }
        meant => Ok(Meant::Value(as_value(alloc, at, meant)?)),
    }
}

/// The place of an element that a pointer leads to.
#[tactic(auto, using(crate::proofs::Paths::indexed_here))]
fn indexed_place(alloc: Global, pointer: Box<Expr>, index: Box<Expr>) -> Result<Box<Place>, Stop>
    ensures ok { IfOk result (λ place. place_of place.value ≡ p.indexed (expr_of pointer.value) (expr_of index.value) p.here) }
    ensures err { IfErr result (λ s. s ≡ Stop.Memory) }
{
    let path = Vec::new(alloc);
    boxed(
        alloc,
        Place::Indexed {
            pointer,
            index,
            path,
        },
    )
}

/// An element that a pointer leads to.
fn pointed_element(alloc: Global, at: Spot, v: Typed, index: Box<Expr>) -> Result<Meant, Stop>
    ensures ok { IfOk result (λ m. rule.element_behind at (typed_of v).ty (typed_of v).code (expr_of index.value) ≡ Holds (meant_of m)) }
    ensures err { IfErr result (StopsAt (rule.element_behind at (typed_of v).ty (typed_of v).code (expr_of index.value))) }
{
    let Typed { line: _, ty, code } = v;
    match ty {
        Some(Ty::Pointer(_, target)) => {
            let place = indexed_place(alloc, code, index)?;
            Ok(Meant::Place(place, Box::into_inner(target)))
        }
        _ => fails(at, Refusal::Mistyped),
    }
}

/// An element of an array field, or one that a pointer leads to.
fn element(alloc: Global, at: Spot, meant: Meant, index: Box<Expr>) -> Result<Meant, Stop>
    ensures ok { IfOk result (λ m. rule.element at (meant_of meant) (expr_of index.value) ≡ Holds (meant_of m)) }
    ensures err { IfErr result (StopsAt (rule.element at (meant_of meant) (expr_of index.value))) }
{
    match meant {
        Meant::Array(place, structure, field, ty) => {
            let step = PathStep::Element {
                structure,
                field,
                index: Box::into_inner(index),
            };
            Ok(Meant::Place(step_inward(alloc, place, step)?, ty))
        }
        Meant::Value(v) => pointed_element(alloc, at, v, index),
        _ => fails(at, Refusal::Mistyped),
    }
}

/// An element of an array field, or one that a pointer leads to (ISO C 6.5.2.1).
///
/// # Errors
///
/// It is neither, or the index is no number: the node is mistyped. Or out of memory.
pub fn index_rule(alloc: Global, at: Spot, meant: Meant, index: Typed) -> Result<Meant, Stop>
    ensures ok { IfOk result (λ m. rule.index_rule at (meant_of meant) (typed_of index) ≡ Holds (meant_of m)) }
    ensures err { IfErr result (StopsAt (rule.index_rule at (meant_of meant) (typed_of index))) }
{
    match sort_of(&index.ty) {
        Sort::Number(from) => {
            let index = promoted_value(alloc, from, index)?;
            element(alloc, at, meant, index)
        }
        _ => fails(at, Refusal::Mistyped),
    }
}

/// An operator before the value of its operand.
fn unary_value(
    alloc: Global,
    at: Spot,
    op: UnaryOp,
    inner: Spot,
    meant: Meant,
) -> Result<Meant, Stop>
    ensures ok { IfOk result (λ m. with_part (values.as_value inner (meant_of meant)) (operator.unary_rule at op) ≡ Holds (meant_of m)) }
    ensures err { IfErr result (StopsAt (with_part (values.as_value inner (meant_of meant)) (operator.unary_rule at op))) }
{
    let v = as_value(alloc, inner, meant)?;
    unary_rule(alloc, at, op, v)
}

/// An operator before its operand, which begins at the spot `inner`: `&` looks at what the operand
/// is, every other at its value.
///
/// # Errors
///
/// It doesn't take such an operand: the node is mistyped. A value is wanted of an operand that is
/// none: the operand is mistyped. Or out of memory.
pub fn unary_meant(
    alloc: Global,
    at: Spot,
    op: UnaryOp,
    inner: Spot,
    meant: Meant,
) -> Result<Meant, Stop>
    ensures ok { IfOk result (λ m. rule.unary_meant at op inner (meant_of meant) ≡ Holds (meant_of m)) }
    ensures err { IfErr result (StopsAt (rule.unary_meant at op inner (meant_of meant))) }
{
    match op {
        UnaryOp::Address => Ok(Meant::Value(address_rule(alloc, at, meant)?)),
        op => unary_value(alloc, at, op, inner, meant),
    }
}
