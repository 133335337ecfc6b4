// The code of places: their pointers, shifts and indices.

ghost use Rattle.std.specs.Prelude.{map, OnOk};
ghost use Rattle.rc_core.specs.Laid.{AreLaidOut};
ghost use Rattle.rc_core.specs.Shapes.{expr_of, place_of, path_of, ty_of, program_of};
ghost use Rattle.rc_translation.specs.Translation as translation;
ghost use Rattle.rc_region_steps.specs.Adding.{AddsExpression, AddsPlace, AddsPath};

use crate::expressions::expression;
use crate::into::{Into, set};
use rc_accesses::{Scope, global_type, index_type, pointer_to, pointer_type, together};
use rc_base::NoMemory;
use rc_core::expr::{Expr, PathStep, Place};
use rc_rlang::steps::{Operation, Step};

/// Adds the code of a pointer from which a place or a step goes.
#[cycle(expressions)]
fn base(
    pointer: &Expr,
    scope: &Scope<'_>,
    steps: &mut Vec<Step>,
    temporary: u32,
) -> Result<(), NoMemory>
    requires laid { AreLaidOut (program_of scope.now.parts.now).structs scope.now.layouts.now }
    ensures { OnOk result (AddsExpression (program_of scope.now.parts.now) (map ty_of scope.now.locals.now) steps.old.items steps.new.items (expr_of pointer.now) (translation.pointer_type (program_of scope.now.parts.now) (map ty_of scope.now.locals.now) (expr_of pointer.now)) temporary) }
{
    let ty = pointer_type(scope, pointer)?;
    expression(pointer, scope, steps, ty, temporary)
}

/// Adds the code of an index.
#[cycle(expressions)]
fn index(
    index: &Expr,
    scope: &Scope<'_>,
    steps: &mut Vec<Step>,
    temporary: u32,
) -> Result<(), NoMemory>
    requires laid { AreLaidOut (program_of scope.now.parts.now).structs scope.now.layouts.now }
    ensures { OnOk result (AddsExpression (program_of scope.now.parts.now) (map ty_of scope.now.locals.now) steps.old.items steps.new.items (expr_of index.now) (translation.index_type (program_of scope.now.parts.now) (map ty_of scope.now.locals.now) (expr_of index.now)) temporary) }
{
    let ty = index_type(scope, index)?;
    expression(index, scope, steps, ty, temporary)
}

/// Adds the code of a place: its pointer, its shift and its indices, from this temporary on.
///
/// # Errors
///
/// Out of memory.
#[cycle(expressions)]
#[tactic(auto, using(rc_core::proofs::ShapeRows::global_is, rc_core::proofs::ShapeRows::pointed_is, rc_core::proofs::ShapeRows::indexed_is, crate::proofs::Behind::two_on, crate::proofs::Behind::three_on))]
pub fn place(
    place: &Place,
    scope: &Scope<'_>,
    steps: &mut Vec<Step>,
    line: u32,
    temporary: u32,
) -> Result<(), NoMemory>
    requires laid { AreLaidOut (program_of scope.now.parts.now).structs scope.now.layouts.now }
    ensures { OnOk result (AddsPlace (program_of scope.now.parts.now) (map ty_of scope.now.locals.now) steps.old.items steps.new.items line (place_of place.now) temporary) }
{
    let next = together(temporary, 1)?;
    match place {
        Place::Global { global, path } => {
            let ty = pointer_to(scope, global_type(scope, *global)?)?;
            set(
                steps,
                Into {
                    line,
                    temporary,
                    ty,
                },
                Operation::Static { object: *global },
            )?;
            self::path(path, scope, steps, next)
        }
        Place::Pointed { pointer, path } => {
            base(pointer, scope, steps, temporary)?;
            self::path(path, scope, steps, next)
        }
        Place::Indexed {
            pointer,
            index,
            path,
        } => {
            base(pointer, scope, steps, temporary)?;
            self::index(index, scope, steps, next)?;
            self::path(path, scope, steps, together(next, 1)?)
        }
    }
}

#[cycle(expressions)]
#[tactic(auto, using(crate::proofs::Walks::path_field, crate::proofs::Walks::path_element, crate::proofs::Walks::path_end))]
fn path(
    path: &[PathStep],
    scope: &Scope<'_>,
    steps: &mut Vec<Step>,
    temporary: u32,
) -> Result<(), NoMemory>
    requires laid { AreLaidOut (program_of scope.now.parts.now).structs scope.now.layouts.now }
    ensures { OnOk result (AddsPath (program_of scope.now.parts.now) (map ty_of scope.now.locals.now) steps.old.items steps.new.items (path_of path.now) temporary) }
{
    let mut free = temporary;
    for step in path {
        match step {
            PathStep::Field {
                structure: _structure,
                field: _field,
            } => {}
            PathStep::Element { index, .. } => {
                self::index(index, scope, steps, free)?;
                free = together(free, 1)?;
            }
        }
    }
    Ok(())
}
