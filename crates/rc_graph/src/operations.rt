// What operations do to the region variables.
ghost use Rattle.std.specs.Prelude.{◌≡◌, List, IfOk, Some, None};
ghost use Rattle.rc_core.specs.Programs.{Struct};
ghost use Rattle.rc_core.specs.Shapes.{ty_of};
ghost use Rattle.rc_rlang.specs.RegionCode.{Routine};
ghost use Rattle.rc_rlang.specs.RegionFlow.{operation_effect, yes_effect, no_effect, stored_value, loaded_value, one_of, if_regional, is_regional as is_regional_type, note_in as note_in_type, local_variable, temporary_variable};
ghost use Rattle.rc_rlang.specs.RegionFlow as From;
ghost use Rattle.rc_rlang.specs.Shapes.{operation_of};
ghost use Rattle.rc_graph.specs.Nodes.{Serves, Numbers, effect_of};

use crate::names::{is_regional, note_in};
use crate::node::Effect;
use crate::output::Context;
use rc_base::NoMemory;
use rc_core::ty::Ty;
use rc_plans::add;
use rc_rlang::steps::Operation;

/// What finding does that a value is true.
pub(crate) fn found_true(ty: &Ty, variable: u32) -> Effect
    ensures { (f : Routine) (h : _) → variable ≡ temporary_variable f h → effect_of result ≡ yes_effect f (ty_of ty.now) h }
{
    if is_regional(ty) {
        Effect::Present(variable)
    } else {
        Effect::Nothing
    }
}

/// What finding does that a value is false.
pub(crate) fn found_false(ty: &Ty, variable: u32) -> Effect
    ensures { (f : Routine) (h : _) → variable ≡ temporary_variable f h → effect_of result ≡ no_effect f (ty_of ty.now) h }
{
    if is_regional(ty) {
        Effect::Absent(variable)
    } else {
        Effect::Nothing
    }
}

/// What a load does from a cell of this type.
pub(crate) fn loaded(cell: &Ty, value: u32, holder: u32) -> Effect
    ensures { (f : Routine) (v h : _) → value ≡ temporary_variable f v → holder ≡ temporary_variable f h → effect_of result ≡ loaded_value f (ty_of cell.now) v h }
{
    if is_regional(cell) {
        Effect::Loaded(value, holder, note_in(cell))
    } else {
        Effect::LookedAt(holder)
    }
}

/// What a store does to a cell of this type.
pub(crate) fn stored(cell: &Ty, value: u32, holder: u32) -> Effect
    ensures { (f : Routine) (v h : _) → value ≡ temporary_variable f v → holder ≡ temporary_variable f h → effect_of result ≡ stored_value f (ty_of cell.now) v h }
{
    if is_regional(cell) {
        Effect::Stored(value, holder, note_in(cell))
    } else {
        Effect::LookedAt(holder)
    }
}

/// The variable that gets a value of this type.
fn given(ty: &Ty, variable: u32) -> Option<u32>
    ensures { result ≡ one_of (is_regional_type (ty_of ty.now)) (Some variable) None }
{
    if is_regional(ty) {
        Some(variable)
    } else {
        None
    }
}

/// What a load does whose value has this type.
fn load(ty: &Ty, cell: &Ty, to: u32) -> Effect
    ensures { effect_of result ≡ one_of (is_regional_type (ty_of ty.now)) (From.loaded to to (note_in_type (ty_of cell.now))) (From.looked_at to) }
{
    if is_regional(ty) {
        Effect::Loaded(to, to, note_in(cell))
    } else {
        Effect::LookedAt(to)
    }
}

/// What a copy of a local does.
fn copy(context: &Context, to: u32, ty: &Ty, local: u32) -> Result<Effect, NoMemory>
    ensures { (structs : List Struct) (f : Routine) → Serves context.now structs f → IfOk result (λ effect. effect_of effect ≡ if_regional (ty_of ty.now) (From.moved to (local_variable f local))) }
{
    if is_regional(ty) {
        Ok(Effect::Moved(to, context.names.local(local)?))
    } else {
        Ok(Effect::Nothing)
    }
}

/// What an operation does whose value comes into a temporary.
pub(crate) fn operation(
    context: &Context,
    height: u32,
    ty: &Ty,
    operation: &Operation,
) -> Result<Effect, NoMemory>
    ensures { (structs : List Struct) (f : Routine) → Serves context.now structs f → IfOk result (λ effect. effect_of effect ≡ operation_effect f height (ty_of ty.now) (operation_of structs operation.now)) }
{
    let to = context.names.temporary(height)?;
    match operation {
        Operation::Constant { .. } => Ok(Effect::Nothing),
        Operation::Null => Ok(Effect::Nulled(to)),
        Operation::Static { .. } => Ok(Effect::Fixed(to)),
        Operation::Copy { local } => copy(context, to, ty, *local),
        Operation::Load { access } => Ok(load(ty, &access.cell, to)),
        Operation::Step { .. } => Ok(Effect::Beside(to, to)),
        Operation::StepFrom { .. } => Ok(Effect::Beside(to, add(to, 1)?)),
        Operation::Unary { .. } => Ok(Effect::Nothing),
        Operation::Binary { .. } => Ok(Effect::Nothing),
        Operation::Convert { .. } => Ok(Effect::Nothing),
        Operation::NotZero { .. } => Ok(Effect::Nothing),
        Operation::Truth { .. } => Ok(Effect::Nothing),
        Operation::IsNull { .. } => Ok(Effect::Nothing),
        Operation::Same { .. } => Ok(Effect::Nothing),
        Operation::Call {
            function,
            parameters,
        } => {
            let arguments = context
                .names
                .arguments(context.alloc, parameters.as_slice(), height)?;
            Ok(Effect::Called {
                result: given(ty, to),
                function: *function,
                arguments,
            })
        }
        Operation::NewRegion => Ok(Effect::Made(to)),
        Operation::NewSubregion => Ok(Effect::Under(to, to)),
        Operation::RegionOf { .. } => Ok(Effect::Beside(to, to)),
        Operation::Allocate { .. } => Ok(Effect::Beside(to, to)),
        Operation::AllocateArray { .. } => Ok(Effect::Beside(to, to)),
        Operation::Putchar => Ok(Effect::Nothing),
        Operation::Getchar => Ok(Effect::Nothing),
    }
}
