// The rules of statements, one node at a time.
ghost use Rattle.std.specs.Prelude.{◌≡◌, option_map, IfOk, IfErr, Option, Some, None, nat_le, get_or};
ghost use Rattle.rc_base.specs.Limits.{most_copied_cells};
ghost use Rattle.rc_core.specs.Programs as p;
ghost use Rattle.rc_core.specs.Shapes.{ty_of, expr_of, place_of, stmt_of};
ghost use Rattle.rc_deletes.specs.Judged.{Holds, fitting as fits};
ghost use Rattle.rc_deletes.specs.Operators as operator;
ghost use Rattle.rc_deletes.specs.Scopes.{Context};
ghost use Rattle.rc_deletes.specs.Statements as rule;
ghost use Rattle.rc_deletes.specs.Values as values;
ghost use Rattle.rc_deletes.specs.Values.{fitted as fitted_value};
ghost use Rattle.rc_typed_values.specs.Shapes.{typed_of, meant_of};
ghost use Rattle.rc_typed_values.specs.Stops.{StopsAt};
ghost use Rattle.rc_rules.specs.Shapes.{meaning_of};
ghost use Rattle.rc_item_rules.specs.Sides.{right_of};
ghost use Rattle.rc_item_rules.specs.Sizes.{TellSmall};

use crate::sides::RightSide;
use rc_base::MOST_COPIED_CELLS;
use rc_core::expr::{Expr, Place};
use rc_core::stmt::Stmt;
use rc_core::ty::{Signedness, Ty};
use rc_deletes::Refusal;
use rc_operators::{change_of, changed};
use rc_rules::Meaning;
use rc_syntax::tree::{BinaryOp, Spot, StepOp};
use rc_typed_values::{
    Meant, Stop, Typed, as_value, boxed, fails, fitted, is_struct, typed, value_type,
};
use std::alloc::Global;

/// A statement whose types fit.
///
/// # Errors
///
/// The node is mistyped, where there is none.
pub fn fitting(at: Spot, step: Option<Box<Stmt>>) -> Result<Box<Stmt>, Stop>
    ensures ok { IfOk result (λ s. fits at (option_map (λ s. stmt_of s.value) step) ≡ Holds (stmt_of s.value)) }
    ensures err { IfErr result (StopsAt (fits at (option_map (λ s. stmt_of s.value) step))) }
{
    match step {
        Some(step) => Ok(step),
        None => fails(at, Refusal::Mistyped),
    }
}

/// A statement that fits.
fn made(alloc: Global, step: Stmt) -> Result<Option<Box<Stmt>>, Stop>
    ensures ok { IfOk result (λ s. option_map (λ s. stmt_of s.value) s ≡ Some (stmt_of step)) }
    ensures err { IfErr result (λ s. s ≡ Stop.Memory) }
{
    Ok(Some(boxed(alloc, step)?))
}

/// The right side of `=` where it is a place: a value, or a place of struct type.
fn place_side(alloc: Global, at: Spot, place: Box<Place>, ty: Ty) -> Result<RightSide, Stop>
    ensures ok { IfOk result (λ r. rule.right_side at (values.a_place (place_of place.value) (ty_of ty)) ≡ Holds (right_of r)) }
    ensures err { IfErr result (StopsAt (rule.right_side at (values.a_place (place_of place.value) (ty_of ty)))) }
{
    match ty {
        Ty::Struct(structure) => Ok(RightSide::Struct(place, structure)),
        ty => Ok(RightSide::Value(as_value(alloc, at, Meant::Place(place, ty))?)),
    }
}

/// The right side of `=`: a value, or a place of struct type.
///
/// # Errors
///
/// It is an array field: the node is mistyped. Or out of memory.
pub fn right_side(alloc: Global, at: Spot, meant: Meant) -> Result<RightSide, Stop>
    ensures ok { IfOk result (λ r. rule.right_side at (meant_of meant) ≡ Holds (right_of r)) }
    ensures err { IfErr result (StopsAt (rule.right_side at (meant_of meant))) }
{
    match meant {
        Meant::Place(place, ty) => place_side(alloc, at, place, ty),
        meant => Ok(RightSide::Value(as_value(alloc, at, meant)?)),
    }
}

/// Whether values of a struct may be assigned whole.
fn is_small(sizes: &[u32], structure: u32) -> bool
    ensures { result ≡ nat_le (get_or sizes.now structure 0) most_copied_cells }
{
    match sizes.get(structure as usize) {
        Some(size) => *size <= MOST_COPIED_CELLS,
        None => true,
    }
}

/// An assignment of a whole struct, between places of the structs with these numbers.
fn copied(
    alloc: Global,
    line: u32,
    sizes: &[u32],
    left: Box<Place>,
    structure: u32,
    right: Box<Place>,
    other: u32,
) -> Result<Option<Box<Stmt>>, Stop>
    ensures ok { (context : Context) → TellSmall context sizes.now → IfOk result (λ s. rule.copy_of context line (place_of left.value) structure (place_of right.value) other ≡ option_map (λ s. stmt_of s.value) s) }
    ensures err { IfErr result (λ s. s ≡ Stop.Memory) }
{
    if structure != other {
        return Ok(None);
    }
    if !is_small(sizes, structure) {
        return Ok(None);
    }
    let step = Stmt::Copy {
        line,
        structure,
        left: Box::into_inner(left),
        right: Box::into_inner(right),
    };
    made(alloc, step)
}

/// An assignment of a whole struct to a place, which may be none.
fn copied_struct(
    alloc: Global,
    line: u32,
    sizes: &[u32],
    place: Box<Place>,
    ty: Ty,
    from: Box<Place>,
    other: u32,
) -> Result<Option<Box<Stmt>>, Stop>
    ensures ok { (context : Context) → TellSmall context sizes.now → IfOk result (λ s. rule.assignment context line (values.a_place (place_of place.value) (ty_of ty)) (rule.whole_struct (place_of from.value) other) ≡ option_map (λ s. stmt_of s.value) s) }
    ensures err { IfErr result (λ s. s ≡ Stop.Memory) }
{
    match ty {
        Ty::Struct(structure) => copied(alloc, line, sizes, place, structure, from, other),
        _ => Ok(None),
    }
}

/// An assignment of a value to a local.
fn assigned(
    alloc: Global,
    line: u32,
    local: u32,
    ty: &Ty,
    v: Typed,
) -> Result<Option<Box<Stmt>>, Stop>
    ensures ok { IfOk result (λ s. option_map (p.assign line local) (fitted_value (ty_of ty.now) (typed_of v)) ≡ option_map (λ s. stmt_of s.value) s) }
    ensures err { IfErr result (λ s. s ≡ Stop.Memory) }
{
    match fitted(alloc, ty, v)? {
        Some(value) => {
            let value = Box::into_inner(value);
            made(alloc, Stmt::Assign { line, local, value })
        }
        None => Ok(None),
    }
}

/// An assignment of a value to a place that is no local.
fn stored(
    alloc: Global,
    line: u32,
    place: Box<Place>,
    ty: &Ty,
    v: Typed,
) -> Result<Option<Box<Stmt>>, Stop>
    ensures ok { IfOk result (λ s. option_map (p.store line (place_of place.value)) (fitted_value (ty_of ty.now) (typed_of v)) ≡ option_map (λ s. stmt_of s.value) s) }
    ensures err { IfErr result (λ s. s ≡ Stop.Memory) }
{
    match fitted(alloc, ty, v)? {
        Some(value) => {
            let place = Box::into_inner(place);
            let value = Box::into_inner(value);
            made(alloc, Stmt::Store { line, place, value })
        }
        None => Ok(None),
    }
}

/// An assignment: of a value to a local or another place, or of a whole struct, by the numbers of
/// cells that the structs have. None where the right side doesn't fit the left, which is none, or
/// a struct of over 256 cells.
///
/// # Errors
///
/// Out of memory.
pub fn assignment(
    alloc: Global,
    line: u32,
    sizes: &[u32],
    left: Meant,
    right: RightSide,
) -> Result<Option<Box<Stmt>>, Stop>
    ensures ok { (context : Context) → TellSmall context sizes.now → IfOk result (λ s. rule.assignment context line (meant_of left) (right_of right) ≡ option_map (λ s. stmt_of s.value) s) }
    ensures err { IfErr result (λ s. s ≡ Stop.Memory) }
{
    match (left, right) {
        (Meant::Variable(local, ty), RightSide::Value(v)) => assigned(alloc, line, local, &ty, v),
        (Meant::Place(place, ty), RightSide::Value(v)) => stored(alloc, line, place, &ty, v),
        (Meant::Place(place, ty), RightSide::Struct(from, other)) => {
            copied_struct(alloc, line, sizes, place, ty, from, other)
        }
        (_, _) => Ok(None),
    }
}

/// `op=` on a local.
fn updated_local(
    alloc: Global,
    line: u32,
    left: u32,
    op: BinaryOp,
    local: u32,
    ty: Ty,
    v: Typed,
) -> Result<Option<Box<Stmt>>, Stop>
    ensures ok { IfOk result (λ s. rule.update_of line left op (values.a_variable local (ty_of ty)) (typed_of v) ≡ option_map (λ s. stmt_of s.value) s) }
    ensures err { IfErr result (λ s. s ≡ Stop.Memory) }
{
    let Some((change, value)) = change_of(alloc, op, &ty, v)? else {
        return Ok(None);
    };
    let old = Expr::Local { line: left, local };
    let old = typed(alloc, left, Some(value_type(ty)), old)?;
    let value = changed(alloc, line, old, change, value)?;
    let value = Box::into_inner(value);
    made(alloc, Stmt::Assign { line, local, value })
}

/// `op=` on a place that is no local.
fn updated_place(
    alloc: Global,
    line: u32,
    op: BinaryOp,
    place: Box<Place>,
    ty: &Ty,
    v: Typed,
) -> Result<Option<Box<Stmt>>, Stop>
    ensures ok { IfOk result (λ s. rule.updated_place line (place_of place.value) (operator.change_of op (ty_of ty.now) (typed_of v)) ≡ option_map (λ s. stmt_of s.value) s) }
    ensures err { IfErr result (λ s. s ≡ Stop.Memory) }
{
    let Some((change, value)) = change_of(alloc, op, ty, v)? else {
        return Ok(None);
    };
    let step = Stmt::Update {
        line,
        place: Box::into_inner(place),
        change,
        value: Box::into_inner(value),
    };
    made(alloc, step)
}

/// `op=`: on a local an assignment, on another place an update. The left side is read at its own
/// line, `left`. None where the left side is none, or the types don't fit.
///
/// # Errors
///
/// Out of memory.
pub fn update_of(
    alloc: Global,
    line: u32,
    left: u32,
    op: BinaryOp,
    meant: Meant,
    v: Typed,
) -> Result<Option<Box<Stmt>>, Stop>
    ensures ok { IfOk result (λ s. rule.update_of line left op (meant_of meant) (typed_of v) ≡ option_map (λ s. stmt_of s.value) s) }
    ensures err { IfErr result (λ s. s ≡ Stop.Memory) }
{
    match meant {
        Meant::Variable(local, ty) => updated_local(alloc, line, left, op, local, ty, v),
        Meant::Place(place, ty) => updated_place(alloc, line, op, place, &ty, v),
        _ => Ok(None),
    }
}

/// `++` adds, and `--` subtracts.
pub fn step_operator(op: StepOp) -> BinaryOp
    ensures { result ≡ rule.step_operator op }
{
    match op {
        StepOp::Increment => BinaryOp::Add,
        StepOp::Decrement => BinaryOp::Subtract,
    }
}

/// The 1 that `++` and `--` add and subtract.
///
/// # Errors
///
/// Out of memory.
pub fn one(alloc: Global, line: u32) -> Result<Typed, Stop>
    ensures ok { IfOk result (λ v. typed_of v ≡ rule.one line) }
    ensures err { IfErr result (λ s. s ≡ Stop.Memory) }
{
    let code = Expr::Constant {
        line,
        signedness: Signedness::Signed,
        value: 1,
    };
    typed(alloc, line, Some(Ty::Int), code)
}

/// A value as a statement.
///
/// # Errors
///
/// It is the word `NULL`: the node is mistyped. Or out of memory.
pub fn alone_rule(alloc: Global, at: Spot, v: Typed) -> Result<Box<Stmt>, Stop>
    ensures ok { IfOk result (λ s. rule.alone_rule at (typed_of v) ≡ Holds (stmt_of s.value)) }
    ensures err { IfErr result (StopsAt (rule.alone_rule at (typed_of v))) }
{
    if v.ty.is_none() {
        return fails(at, Refusal::Mistyped);
    }
    let step = Stmt::Evaluate {
        line: at.line,
        value: Box::into_inner(v.code),
    };
    boxed(alloc, step)
}

/// Whether a name stands for a local of the scope whose first local has the number `first`.
pub fn is_twice(first: u32, meaning: Option<&Meaning>) -> bool
    ensures { result ≡ rule.is_twice first (option_map (λ m. meaning_of m.now) meaning.entry) }
{
    match meaning {
        Some(Meaning::Local(local, _)) => first <= *local,
        _ => false,
    }
}

/// A declarator of a local with its initial value. None where the local is a struct, or the value
/// doesn't fit.
///
/// # Errors
///
/// Out of memory.
pub fn declaration(
    alloc: Global,
    line: u32,
    local: u32,
    ty: &Ty,
    initial: Option<Typed>,
) -> Result<Option<Box<Stmt>>, Stop>
    ensures ok { IfOk result (λ s. rule.declaration line local (ty_of ty.now) (option_map typed_of initial) ≡ option_map (λ s. stmt_of s.value) s) }
    ensures err { IfErr result (λ s. s ≡ Stop.Memory) }
{
    if is_struct(ty) {
        return Ok(None);
    }
    match initial {
        None => {
            let value = None;
            made(alloc, Stmt::Declare { line, local, value })
        }
        Some(v) => declared(alloc, line, local, ty, v),
    }
}

/// A declarator of a local with an initial value.
fn declared(
    alloc: Global,
    line: u32,
    local: u32,
    ty: &Ty,
    v: Typed,
) -> Result<Option<Box<Stmt>>, Stop>
    ensures ok { IfOk result (λ s. option_map (λ e. p.declare line local (Some e)) (fitted_value (ty_of ty.now) (typed_of v)) ≡ option_map (λ s. stmt_of s.value) s) }
    ensures err { IfErr result (λ s. s ≡ Stop.Memory) }
{
    match fitted(alloc, ty, v)? {
        Some(value) => {
            let value = Some(Box::into_inner(value));
            made(alloc, Stmt::Declare { line, local, value })
        }
        None => Ok(None),
    }
}

/// A `return` with a value of a type.
fn returned_value(alloc: Global, line: u32, ty: &Ty, v: Typed) -> Result<Option<Box<Stmt>>, Stop>
    ensures ok { IfOk result (λ s. option_map (λ e. p.return line (Some e)) (fitted_value (ty_of ty.now) (typed_of v)) ≡ option_map (λ s. stmt_of s.value) s) }
    ensures err { IfErr result (λ s. s ≡ Stop.Memory) }
{
    match fitted(alloc, ty, v)? {
        Some(value) => {
            let value = Some(Box::into_inner(value));
            made(alloc, Stmt::Return { line, value })
        }
        None => Ok(None),
    }
}

/// A `return` in a function that gives a value of a type, or none. None where the value doesn't
/// fit, is missing, or isn't wanted.
///
/// # Errors
///
/// Out of memory.
pub fn returned(
    alloc: Global,
    line: u32,
    gives: &Option<Ty>,
    value: Option<Typed>,
) -> Result<Option<Box<Stmt>>, Stop>
    ensures ok { IfOk result (λ s. rule.returned line (option_map ty_of gives.now) (option_map typed_of value) ≡ option_map (λ s. stmt_of s.value) s) }
    ensures err { IfErr result (λ s. s ≡ Stop.Memory) }
{
    match (gives, value) {
        (None, None) => made(alloc, Stmt::Return { line, value: None }),
        (Some(ty), Some(v)) => returned_value(alloc, line, ty, v),
        (_, _) => Ok(None),
    }
}
