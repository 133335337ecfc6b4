// The types of expressions and of places.

ghost use Rattle.std.specs.Prelude.{◌≡◌, Option, map, option_map, get_or, IfOk};
ghost use Rattle.rc_core.specs.Layout.{field_at};
ghost use Rattle.rc_core.specs.Shapes.{expr_of, field_of, function_of, place_of, path_of, ty_of, program_of};
ghost use Rattle.rc_core.specs.Typing as typing;
ghost use Rattle.rc_core.specs.Types as types;
ghost use Rattle.rc_core.specs.declared.ty.Note.TheVariants.{Plain};
ghost use Rattle.rc_translation.specs.Translation as translation;
ghost use Rattle.rc_accesses.specs.Inner.{inner_type};

use crate::scope::Scope;
use rc_base::NoMemory;
use rc_core::cells::copy_of;
use rc_core::expr::{Expr, PathStep, Place};
use rc_core::operators::Operator;
use rc_core::parts::{Field, Function};
use rc_core::ty::{Note, NumberType, Signedness, Ty};

/// The type of arithmetic.
pub fn arithmetic(signedness: Signedness) -> Ty
    ensures { ty_of result ≡ typing.arithmetic signedness }
{
    match signedness {
        Signedness::Signed => Ty::Int,
        Signedness::Unsigned => Ty::Unsigned,
    }
}

/// The type of numbers of a kind.
pub fn number(kind: NumberType) -> Ty
    ensures { ty_of result ≡ typing.number kind }
{
    match kind {
        NumberType::Int => Ty::Int,
        NumberType::Unsigned => Ty::Unsigned,
        NumberType::Char => Ty::Char,
    }
}

fn is_comparison(operator: Operator) -> bool
    ensures { result ≡ typing.is_comparison operator }
{
    matches!(
        operator,
        Operator::Less
            | Operator::Greater
            | Operator::LessEqual
            | Operator::GreaterEqual
            | Operator::Equal
            | Operator::NotEqual,
    )
}

/// The type of what an operator gives.
fn result_type(operator: Operator, signedness: Signedness) -> Ty
    ensures { ty_of result ≡ typing.result_type operator signedness }
{
    if is_comparison(operator) {
        return Ty::Int;
    }
    arithmetic(signedness)
}

/// The type of the values that are kept as this type: without the annotation of the last star.
pub fn value_type(ty: Ty) -> Ty
    ensures { ty_of result ≡ typing.value_type (ty_of ty) }
{
    match ty {
        Ty::Int => Ty::Int,
        Ty::Unsigned => Ty::Unsigned,
        Ty::Char => Ty::Char,
        Ty::Region => Ty::Region,
        Ty::Struct(number) => Ty::Struct(number),
        Ty::Pointer(_, target) => Ty::Pointer(Note::Plain, target),
    }
}

/// The type of pointers to values of this one.
pub fn pointer_to(scope: &Scope<'_>, target: Ty) -> Result<Ty, NoMemory>
    ensures { IfOk result (λ t. ty_of t ≡ types.pointer Plain (ty_of target)) }
{
    Ok(Ty::Pointer(Note::Plain, Box::new(scope.alloc, target)?))
}

/// What a pointer of this type points to.
pub(crate) fn pointee(scope: &Scope<'_>, ty: Ty) -> Result<Ty, NoMemory>
    ensures { IfOk result (λ t. ty_of t ≡ translation.pointee (ty_of ty)) }
{
    match ty {
        Ty::Pointer(_, target) => copy_of(scope.alloc, &target),
        other => Ok(other),
    }
}

/// The signedness of an index.
fn signedness(_scope: &Scope<'_>, ty: &Ty) -> Signedness
    ensures { result ≡ translation.signedness (program_of _scope.now.parts.now) (map ty_of _scope.now.locals.now) (ty_of ty.now) }
{
    match ty {
        Ty::Unsigned => Signedness::Unsigned,
        _ => Signedness::Signed,
    }
}

/// The type of a local.
///
/// # Errors
///
/// Out of memory.
#[tactic(auto, using(crate::proofs::PathTypes::local_there, crate::proofs::PathTypes::local_missing))]
pub fn local_type(scope: &Scope<'_>, local: u32) -> Result<Ty, NoMemory>
    ensures { IfOk result (λ t. ty_of t ≡ get_or (map ty_of scope.now.locals.now) local types.int) }
{
    match scope.locals.get(local as usize) {
        None => Ok(Ty::Int),
        Some(ty) => copy_of(scope.alloc, ty),
    }
}

/// The type of a global.
#[tactic(auto, using(crate::proofs::PathTypes::global_there, crate::proofs::PathTypes::global_missing))]
pub fn global_type(scope: &Scope<'_>, global: u32) -> Result<Ty, NoMemory>
    ensures { IfOk result (λ t. ty_of t ≡ translation.global_type (program_of scope.now.parts.now) global) }
{
    match scope.parts.globals.get(global as usize) {
        None => Ok(Ty::Int),
        Some(global) => copy_of(scope.alloc, &global.ty),
    }
}

/// The type of what a function gives.
#[tactic(auto, using(crate::proofs::PathTypes::call_there, crate::proofs::PathTypes::call_without, crate::proofs::PathTypes::call_missing))]
fn call_type(scope: &Scope<'_>, function: u32) -> Result<Ty, NoMemory>
    ensures { IfOk result (λ t. ty_of t ≡ translation.call_type (program_of scope.now.parts.now) function) }
{
    match scope.parts.functions.get(function as usize) {
        None => Ok(Ty::Int),
        Some(f) => match &f.result {
            None => Ok(Ty::Int),
            Some(ty) => Ok(value_type(copy_of(scope.alloc, ty)?)),
        },
    }
}

/// A field of a struct, where it is there.
#[tactic(auto, using(crate::proofs::PathTypes::field_there, crate::proofs::PathTypes::struct_missing))]
fn field<'p>(scope: &Scope<'p>, structure: u32, field: u32) -> Option<&'p Field>
    ensures { option_map (λ f. field_of f.now) result ≡ field_at (program_of scope.now.parts.now).structs structure field }
{
    match scope.parts.structs.get(structure as usize) {
        None => None,
        Some(structure) => structure.fields.get(field as usize),
    }
}

/// The type of a field.
fn field_type(scope: &Scope<'_>, structure: u32, number: u32) -> Result<Ty, NoMemory>
    ensures { IfOk result (λ t. ty_of t ≡ translation.field_type (field_at (program_of scope.now.parts.now).structs structure number)) }
{
    match field(scope, structure, number) {
        None => Ok(Ty::Int),
        Some(field) => copy_of(scope.alloc, &field.ty),
    }
}

/// The type of what a step inward leads to.
fn type_inside(scope: &Scope<'_>, step: &PathStep) -> Result<Ty, NoMemory>
    ensures { IfOk result (λ t. ty_of t ≡ inner_type (program_of scope.now.parts.now) step.now) }
{
    match step {
        PathStep::Field { structure, field } => field_type(scope, *structure, *field),
        PathStep::Element {
            structure,
            field,
            ..
        } => field_type(scope, *structure, *field),
    }
}

/// The type to which a way leads from a value of this type.
#[tactic(auto, using(crate::proofs::PathTypes::path_step, crate::proofs::PathTypes::path_end))]
fn path_type(scope: &Scope<'_>, path: &[PathStep], ty: &Ty) -> Result<Ty, NoMemory>
    ensures { IfOk result (λ t. ty_of t ≡ translation.path_type (program_of scope.now.parts.now) (map ty_of scope.now.locals.now) (path_of path.now) (ty_of ty.now)) }
{
    let mut inner = copy_of(scope.alloc, ty)?;
    for step in path {
        inner = type_inside(scope, step)?;
    }
    Ok(inner)
}

/// The type of an element, from which a way leads on. A way that isn't empty leads to a type of its
/// own, so the pointer's isn't asked for then.
#[cycle(types)]
#[tactic(auto, using(crate::proofs::PathTypes::path_last, crate::proofs::PathTypes::path_empty))]
fn element_type(scope: &Scope<'_>, pointer: &Expr, path: &[PathStep]) -> Result<Ty, NoMemory>
    ensures { IfOk result (λ t. ty_of t ≡ translation.path_type (program_of scope.now.parts.now) (map ty_of scope.now.locals.now) (path_of path.now) (translation.pointee (translation.expression_type (program_of scope.now.parts.now) (map ty_of scope.now.locals.now) (expr_of pointer.now)))) }
{
    match path.last() {
        Some(step) => type_inside(scope, step),
        None => pointee(scope, expression_type(scope, pointer)?),
    }
}

/// The type of a place.
#[cycle(types)]
#[tactic(auto, using(rc_core::proofs::ShapeRows::global_is, rc_core::proofs::ShapeRows::pointed_is, rc_core::proofs::ShapeRows::indexed_is))]
pub(crate) fn place_type(scope: &Scope<'_>, place: &Place) -> Result<Ty, NoMemory>
    ensures { IfOk result (λ t. ty_of t ≡ translation.place_type (program_of scope.now.parts.now) (map ty_of scope.now.locals.now) (place_of place.now)) }
{
    match place {
        Place::Global { global, path } => {
            let whole = global_type(scope, *global)?;
            path_type(scope, path, &whole)
        }
        Place::Pointed { pointer, path } => element_type(scope, pointer, path),
        Place::Indexed { pointer, path, .. } => element_type(scope, pointer, path),
    }
}

/// The type of an expression.
#[cycle(types)]
#[tactic(auto, using(rc_core::proofs::ShapeRows::call_is))]
pub fn expression_type(scope: &Scope<'_>, e: &Expr) -> Result<Ty, NoMemory>
    ensures { IfOk result (λ t. ty_of t ≡ translation.expression_type (program_of scope.now.parts.now) (map ty_of scope.now.locals.now) (expr_of e.now)) }
{
    match e {
        Expr::Constant { signedness, .. } => Ok(arithmetic(*signedness)),
        Expr::Null { .. } => Ok(Ty::Region),
        Expr::Str { .. } => pointer_to(scope, Ty::Char),
        Expr::Local { local, .. } => Ok(value_type(local_type(scope, *local)?)),
        Expr::Read { place, .. } => Ok(value_type(place_type(scope, place)?)),
        Expr::Address { global, .. } => pointer_to(scope, global_type(scope, *global)?),
        Expr::Step { pointer, .. } => expression_type(scope, pointer),
        Expr::StepFrom { pointer, .. } => expression_type(scope, pointer),
        Expr::Unary { signedness, .. } => Ok(arithmetic(*signedness)),
        Expr::Binary {
            operator,
            signedness,
            ..
        } => Ok(result_type(*operator, *signedness)),
        Expr::Convert { to, .. } => Ok(number(*to)),
        Expr::Not { .. } => Ok(Ty::Int),
        Expr::And { .. } => Ok(Ty::Int),
        Expr::Or { .. } => Ok(Ty::Int),
        Expr::Choose { yes, .. } => expression_type(scope, yes),
        Expr::IsNull { .. } => Ok(Ty::Int),
        Expr::Same { .. } => Ok(Ty::Int),
        Expr::Call { function, .. } => call_type(scope, *function),
        Expr::NewRegion { .. } => Ok(Ty::Region),
        Expr::NewSubregion { .. } => Ok(Ty::Region),
        Expr::RegionOf { .. } => Ok(Ty::Region),
        Expr::Allocate { element, .. } => pointer_to(scope, copy_of(scope.alloc, element)?),
        Expr::AllocateArray { element, .. } => pointer_to(scope, copy_of(scope.alloc, element)?),
        Expr::Putchar { .. } => Ok(Ty::Int),
        Expr::Getchar { .. } => Ok(Ty::Int),
    }
}

/// The type as which a pointer is put in.
pub fn pointer_type(scope: &Scope<'_>, pointer: &Expr) -> Result<Ty, NoMemory>
    ensures { IfOk result (λ t. ty_of t ≡ translation.pointer_type (program_of scope.now.parts.now) (map ty_of scope.now.locals.now) (expr_of pointer.now)) }
{
    let target = pointee(scope, expression_type(scope, pointer)?)?;
    pointer_to(scope, target)
}

/// The signedness of an index, or of a number that steps a pointer.
#[tactic(auto, using(crate::proofs::PathTypes::same_signedness))]
pub(crate) fn index_signedness(scope: &Scope<'_>, index: &Expr) -> Result<Signedness, NoMemory>
    ensures { IfOk result (λ s. s ≡ translation.signedness (program_of scope.now.parts.now) (map ty_of scope.now.locals.now) (translation.expression_type (program_of scope.now.parts.now) (map ty_of scope.now.locals.now) (expr_of index.now))) }
{
    let ty = expression_type(scope, index)?;
    Ok(signedness(scope, &ty))
}

/// The type as which an index is put in.
pub fn index_type(scope: &Scope<'_>, index: &Expr) -> Result<Ty, NoMemory>
    ensures { IfOk result (λ t. ty_of t ≡ translation.index_type (program_of scope.now.parts.now) (map ty_of scope.now.locals.now) (expr_of index.now)) }
{
    Ok(arithmetic(index_signedness(scope, index)?))
}

/// The types of a function's parameters.
#[tactic(auto, using(crate::proofs::PathTypes::parameters_there, crate::proofs::PathTypes::parameters_missing))]
pub fn parameter_types<'p>(scope: &Scope<'p>, function: u32) -> &'p [Ty]
    ensures { map ty_of result.now ≡ translation.parameter_types (program_of scope.now.parts.now) function }
{
    match scope.parts.functions.get(function as usize) {
        None => &[],
        Some(f) => first_types(f),
    }
}

#[tactic(auto, using(crate::proofs::PathTypes::parameters_all, crate::proofs::PathTypes::parameters_front))]
fn first_types(f: &Function) -> &[Ty]
    ensures { map ty_of result.now ≡ typing.parameters_of (function_of f.now) }
{
    let locals = f.locals.as_slice();
    if f.parameters as usize >= locals.len() {
        return locals;
    }
    let (parameters, _others) = locals.split_at(f.parameters as usize);
    parameters
}
