// Where a place lies: the access that an operation names.

ghost use Rattle.std.specs.Prelude.{◌≡◌, ◌+◌, [], Option, map, IfOk};
ghost use Rattle.rc_core.specs.Laid.{AreLaidOut};
ghost use Rattle.rc_core.specs.Layout.{offset, count_of, stride};
ghost use Rattle.rc_core.specs.Types.{Ty as CleanTy};
ghost use Rattle.rc_core.specs.declared.ty.Signedness.{Signedness};
ghost use Rattle.rc_core.specs.Shapes.{expr_of, place_of, path_of, ty_of, program_of};
ghost use Rattle.rc_rlang.specs.RegionCode as rlang;
ghost use Rattle.rc_rlang.specs.Shapes.{access_of, index_of};
ghost use Rattle.rc_translation.specs.Translation as translation;
ghost use Rattle.rc_accesses.specs.Inner.{access_at};

use crate::scope::Scope;
use crate::types::{expression_type, global_type, index_signedness, place_type, pointee};
use rc_base::NoMemory;
use rc_core::expr::{Expr, PathStep, Place};
use rc_core::ty::{Signedness, Ty};
use rc_rlang::access::{Access, Index};

/// A number of cells or elements in the width that an access has. In a program whose parts fit
/// together none is greater, and past the greatest the answer is that memory ran out.
pub fn narrowed(number: u64) -> Result<u32, NoMemory>
    ensures { IfOk result (λ n. n ≡ number) }
{
    if number > 4294967295 {
        return Err(NoMemory);
    }
    Ok(number as u32)
}

/// Two numbers together, likewise.
pub fn together(left: u32, right: u32) -> Result<u32, NoMemory>
    ensures { IfOk result (λ n. n ≡ left + right) }
{
    match left.checked_add(right) {
        None => Err(NoMemory),
        Some(sum) => Ok(sum),
    }
}

/// The index into an array field.
fn index_into(
    scope: &Scope<'_>,
    structure: u32,
    field: u32,
    index: &Expr,
) -> Result<Index, NoMemory>
    requires laid { AreLaidOut (program_of scope.now.parts.now).structs scope.now.layouts.now }
    ensures { IfOk result (λ i. index_of i ≡ record { count = count_of (program_of scope.now.parts.now).structs structure field; stride = stride (program_of scope.now.parts.now).structs structure field; kind = translation.signedness (program_of scope.now.parts.now) (map ty_of scope.now.locals.now) (translation.expression_type (program_of scope.now.parts.now) (map ty_of scope.now.locals.now) (expr_of index.now)) }) }
{
    let place = scope.layouts.field(structure, field);
    Ok(Index {
        count: narrowed(place.count)?,
        stride: narrowed(place.stride)?,
        signedness: index_signedness(scope, index)?,
    })
}

/// How many cells on the field lies.
fn farther(scope: &Scope<'_>, cells: u32, structure: u32, field: u32) -> Result<u32, NoMemory>
    requires laid { AreLaidOut (program_of scope.now.parts.now).structs scope.now.layouts.now }
    ensures { IfOk result (λ n. n ≡ cells + offset (program_of scope.now.parts.now).structs structure field) }
{
    let place = scope.layouts.field(structure, field);
    together(cells, narrowed(place.offset)?)
}

/// A way inward.
#[derive(Drop)]
struct Way {
    offset: u32,
    indices: Vec<Index>,
}

#[tactic(auto, using(crate::proofs::Accesses::way_field, crate::proofs::Accesses::way_element, crate::proofs::Accesses::way_end))]
fn inward(scope: &Scope<'_>, path: &[PathStep]) -> Result<Way, NoMemory>
    requires laid { AreLaidOut (program_of scope.now.parts.now).structs scope.now.layouts.now }
    ensures { (element cell : CleanTy) (shift : Option Signedness) → IfOk result (λ w. translation.path_access (program_of scope.now.parts.now) (map ty_of scope.now.locals.now) (path_of path.now) (access_at element cell shift 0 []) ≡ access_at element cell shift w.offset (map index_of w.indices.items)) }
{
    let mut offset = 0;
    let mut indices = Vec::new(scope.alloc);
    for step in path {
        match step {
            PathStep::Field { structure, field } => {
                offset = farther(scope, offset, *structure, *field)?;
            }
            PathStep::Element {
                structure,
                field,
                index,
            } => {
                offset = farther(scope, offset, *structure, *field)?;
                indices.push(index_into(scope, *structure, *field, index)?)?;
            }
        }
    }
    Ok(Way { offset, indices })
}

/// The cell to which a way leads from an element.
fn reached(
    scope: &Scope<'_>,
    path: &[PathStep],
    element: Ty,
    cell: Ty,
    shift: Option<Signedness>,
) -> Result<Access, NoMemory>
    requires laid { AreLaidOut (program_of scope.now.parts.now).structs scope.now.layouts.now }
    ensures { IfOk result (λ a. access_of a ≡ translation.path_access (program_of scope.now.parts.now) (map ty_of scope.now.locals.now) (path_of path.now) (access_at (ty_of element) (ty_of cell) shift 0 [])) }
{
    let way = inward(scope, path)?;
    Ok(Access {
        element,
        cell,
        shift,
        offset: way.offset,
        indices: way.indices,
    })
}

/// The access of a place.
#[tactic(auto, using(rc_core::proofs::ShapeRows::global_is, rc_core::proofs::ShapeRows::pointed_is, rc_core::proofs::ShapeRows::indexed_is))]
pub fn access(scope: &Scope<'_>, place: &Place) -> Result<Access, NoMemory>
    requires laid { AreLaidOut (program_of scope.now.parts.now).structs scope.now.layouts.now }
    ensures { IfOk result (λ a. access_of a ≡ translation.access (program_of scope.now.parts.now) (map ty_of scope.now.locals.now) (place_of place.now)) }
{
    let cell = place_type(scope, place)?;
    match place {
        Place::Global { global, path } => {
            let element = global_type(scope, *global)?;
            reached(scope, path, element, cell, None)
        }
        Place::Pointed { pointer, path } => {
            let element = target_type(scope, pointer)?;
            reached(scope, path, element, cell, None)
        }
        Place::Indexed {
            pointer,
            index,
            path,
        } => {
            let element = target_type(scope, pointer)?;
            let shift = index_signedness(scope, index)?;
            reached(scope, path, element, cell, Some(shift))
        }
    }
}

/// What a pointer points to.
fn target_type(scope: &Scope<'_>, pointer: &Expr) -> Result<Ty, NoMemory>
    ensures { IfOk result (λ t. ty_of t ≡ translation.pointee (translation.expression_type (program_of scope.now.parts.now) (map ty_of scope.now.locals.now) (expr_of pointer.now))) }
{
    let ty = expression_type(scope, pointer)?;
    pointee(scope, ty)
}

/// How many temporaries an access reads.
///
/// # Errors
///
/// Out of memory, where they are too many for their numbers.
#[tactic(auto, using(crate::proofs::Accesses::indices_there))]
pub fn width(access: &Access) -> Result<u32, NoMemory>
    ensures { IfOk result (λ n. n ≡ rlang.width (access_of access.now)) }
{
    let own = match access.shift {
        None => 1,
        Some(_shift) => 2,
    };
    together(own, narrowed(access.indices.len() as u64)?)
}
