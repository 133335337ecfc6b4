// The greatest proofs of an image, and the marks that they prove.
ghost use Rattle.std.specs.Prelude.{map, IfOk};
ghost use Rattle.std.specs.List.{All};
ghost use Rattle.rc_code.specs.Image.{FieldsFit};
ghost use Rattle.rc_code.specs.Soundness.{Sound};
ghost use Rattle.rc_prove_parts.specs.declared.route.Route.{Route as AnyRoute};
ghost use Rattle.rc_prove.specs.Family.{family_of, RouteFits};
ghost use Rattle.rc_sealed.specs.Faults.{NoneIsWide};
ghost use Rattle.rc_seal.specs.Finding.{AreFound, AreMarks};
ghost use Rattle.rc_seal.specs.Marking.{bits_of};

use crate::claims::proofs_of;
use rc_base::NoMemory;
use rc_claims::Proofs;
use rc_code::Parts;
use rc_prove::{Claims, greatest};
use rc_prove_marks::marks_of;
use rc_prove_parts::Route;
use rc_prove_routes::routes_of;
use std::alloc::Global;

/// The greatest proofs of an image, and marks of each function.
#[derive(Drop)]
pub(crate) struct Found {
    pub(crate) proofs: Proofs,
    pub(crate) marks: Vec<Vec<bool>>,
}

/// The marks of each function, by its way.
fn all_marks(alloc: Global, routes: &[Route], claims: &Claims) -> Result<Vec<Vec<bool>>, NoMemory>
    requires { All (λ (route : AnyRoute). RouteFits route (family_of claims.now.entries.items claims.now.exits.items claims.now.frames.items)) routes.now }
    ensures { IfOk result (λ all. AreMarks routes.now (family_of claims.now.entries.items claims.now.exits.items claims.now.frames.items) (map bits_of all.items)) }
{
    let mut all = Vec::new(alloc);
    for number in 0..routes.len() {
        let marks = marks_of(alloc, &routes[number], claims)?;
        all.push(marks)?;
    }
    Ok(all)
}

/// Finds the greatest proofs of an image, and which checks they prove. The only error is want of memory.
pub(crate) fn find(alloc: Global, parts: &Parts) -> Result<Found, NoMemory>
    requires fields { FieldsFit parts.now }
    requires sound { Sound parts.now }
    requires narrow { NoneIsWide parts.now }
    ensures { IfOk result (λ found. AreFound parts.now found.proofs (map bits_of found.marks.items)) }
{
    let all = routes_of(alloc, parts)?;
    let routes = all.routes.as_slice();
    let counts = all.counts.as_slice();
    let claims = greatest(alloc, routes, counts)?;
    let marks = all_marks(alloc, routes, &claims)?;
    let proofs = proofs_of(alloc, parts, counts, &claims)?;
    Ok(Found { proofs, marks })
}
