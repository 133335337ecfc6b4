// The greatest facts of an image.
ghost use Rattle.std.specs.Prelude.{◌≡◌, length, IfOk, OnOk};
ghost use Rattle.std.specs.List.{All};
ghost use Rattle.rc_code.specs.declared.image.Parts.{Parts};
ghost use Rattle.rc_code.specs.Running.{reading_of};
ghost use Rattle.rc_prove_parts.specs.declared.route.Route.{Route as AnyRoute};
ghost use Rattle.rc_prove.specs.declared.start.Counts.{Counts as AnyCounts};
ghost use Rattle.rc_prove.specs.Family.{family_of, Family, Found, IsRoute, RouteFits};
ghost use Rattle.rc_prove.specs.Starting.{AreShaped, CountsFit, IsBegun};
ghost use Rattle.rc_prove.specs.TheGreatest.{AreGreatest, AreRoutes};

use crate::released::released;
use crate::rounds::search;
use crate::start::{Claims, Counts, Sets, full};
use rc_base::NoMemory;
use rc_prove_parts::Route;
use std::alloc::Global;

/// Lowers sets until they prove all functions, but for the checks.
fn lower_all(alloc: Global, routes: &[Route], claims: &mut Sets) -> Result<(), NoMemory>
    requires { All (λ (route : AnyRoute). RouteFits route (family_of claims.old.entries.items claims.old.exits.items claims.old.frames.items)) routes.now }
    ensures { OnOk result (Found routes.now (family_of claims.old.entries.items claims.old.exits.items claims.old.frames.items) (family_of claims.new.entries.items claims.new.exits.items claims.new.frames.items)) }
{
    search(
        alloc,
        routes,
        claims.entries.as_mut_slice(),
        claims.exits.as_mut_slice(),
        claims.frames.as_mut_slice(),
    )
}

/// The greatest facts of an image that prove it but for its checks, by the ways through its functions and
/// the counts of their variables. All proofs that an image may carry and that prove it so are inside of
/// these.
///
/// # Errors
///
/// Out of memory.
pub fn greatest(alloc: Global, routes: &[Route], counts: &[Counts]) -> Result<Claims, NoMemory>
    requires counts { All (λ (c : AnyCounts). CountsFit c) counts.now }
    requires routes { (m : Family) → IsBegun counts.now (length counts.now) m → All (λ (route : AnyRoute). RouteFits route m) routes.now }
    ensures greatest { IfOk result (λ claims. (parts : Parts) → AreRoutes parts routes.now counts.now → AreGreatest parts (family_of claims.entries.items claims.exits.items claims.frames.items)) }
    ensures shaped { IfOk result (λ claims. AreShaped counts.now (family_of claims.entries.items claims.exits.items claims.frames.items)) }
    ensures fits { IfOk result (λ claims. All (λ (route : AnyRoute). RouteFits route (family_of claims.entries.items claims.exits.items claims.frames.items)) routes.now) }
    ensures looks { IfOk result (λ claims. (parts : Parts) → AreRoutes parts routes.now counts.now → All (IsRoute (reading_of parts) (family_of claims.entries.items claims.exits.items claims.frames.items)) routes.now) }
{
    let mut claims = full(alloc, counts)?;
    lower_all(alloc, routes, &mut claims)?;
    let done = released(alloc, claims)?;
    Ok(done)
}
