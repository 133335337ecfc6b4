// The ways through the functions of an image.
ghost use Rattle.std.specs.Prelude.{◌≡◌, ◌<◌, ◌++◌, ◌∷◌, [], length, IfOk, OnOk};
ghost use Rattle.std.specs.List.{All};
ghost use Rattle.rc_code.specs.Image.{FieldsFit};
ghost use Rattle.rc_code.specs.Soundness.{Sound};
ghost use Rattle.rc_sealed.specs.Faults.{IsWide, NoneIsWide};
ghost use Rattle.rc_image_steps.specs.Sites.{image_of};
ghost use Rattle.rc_prove_parts.specs.declared.route.Route.{Route as AnyRoute};
ghost use Rattle.rc_prove.specs.declared.start.Counts.{Counts as AnyCounts};
ghost use Rattle.rc_prove.specs.Family.{Family, RouteFits};
ghost use Rattle.rc_prove.specs.Starting.{CountsFit, IsBegun};
ghost use Rattle.rc_prove.specs.TheGreatest.{AreRoutes};
ghost use Rattle.rc_prove_routes.specs.Walking.{IsWalk};
ghost use Rattle.rc_prove_routes.specs.Routed.{AreFirst, IsFound, IsRouteThrough};

use crate::counting::counts_of;
use crate::numbers::{functions_in, number_of};
use crate::spots::spots_of;
use crate::tables::{first_of, targets_of};
use crate::walk::Walk;
use rc_base::NoMemory;
use rc_code::Parts;
use rc_image_counts::function_of;
use rc_image_shapes::shape_of;
use rc_image_steps::Site;
use rc_prove::Counts;
use rc_prove_parts::{Place, Route};
use rc_prove_ways::ranks_of;
use std::alloc::Global;

/// The way through each function of an image, and its counts.
#[derive(Drop)]
pub struct Routes {
    /// The way through each function.
    pub routes: Vec<Route>,
    /// How many variables the facts of each function's sets speak of.
    pub counts: Vec<Counts>,
}

/// The way through a function, and its counts.
#[derive(Drop)]
pub(crate) struct Found {
    pub(crate) route: Route,
    pub(crate) counts: Counts,
}

/// The way through a function.
fn route_of(walk: &Walk<'_>) -> Result<Route, NoMemory>
    requires { IsWalk walk.now }
    ensures { IfOk result (λ route. IsRouteThrough (image_of walk.now.site) walk.now.site.number route) }
{
    let spots = spots_of(walk)?;
    Ok(Route {
        place: Place {
            function: walk.site.number as usize,
            copies: walk.site.shape.copies,
            result: walk.site.shape.result,
        },
        spots,
        first: first_of(walk.targets),
    })
}

/// The way through a function that isn't wide, and its counts.
fn found_in(alloc: Global, parts: &Parts, number: u32) -> Result<Found, NoMemory>
    requires fields { FieldsFit parts.now }
    requires sound { Sound parts.now }
    requires there { number < length parts.now.functions }
    requires narrow { IsWide parts.now number → ⊥ }
    ensures { IfOk result (λ found. IsFound parts.now number found) }
{
    let shape = shape_of(alloc, parts, number)?;
    let code = function_of(parts, number).code.as_slice();
    let targets = targets_of(&shape, code.len());
    let ranks = ranks_of(alloc, targets)?;
    let walk = Walk {
        alloc,
        site: Site {
            parts,
            number,
            shape: &shape,
        },
        targets,
        ranks: ranks.as_slice(),
    };
    let route = route_of(&walk)?;
    Ok(Found {
        route,
        counts: counts_of(&walk),
    })
}

/// Puts those of a function behind the others.
fn put(all: &mut Routes, found: Found) -> Result<(), NoMemory>
    ensures routes { OnOk result (all.new.routes.items ≡ all.old.routes.items ++ found.route ∷ []) }
    ensures counts { OnOk result (all.new.counts.items ≡ all.old.counts.items ++ found.counts ∷ []) }
{
    let Found { route, counts } = found;
    all.routes.push(route)?;
    all.counts.push(counts)?;
    Ok(())
}

/// The ways through the functions of an image of which none is wide, with what they have to be for a
/// search: the counts fit, the ways suit the sets with which it begins, and they are those of the image.
///
/// # Errors
///
/// Out of memory.
pub fn routes_of(alloc: Global, parts: &Parts) -> Result<Routes, NoMemory>
    requires fields { FieldsFit parts.now }
    requires sound { Sound parts.now }
    requires narrow { NoneIsWide parts.now }
    ensures counts { IfOk result (λ all. All (λ (c : AnyCounts). CountsFit c) all.counts.items) }
    ensures fits { IfOk result (λ all. (m : Family) → IsBegun all.counts.items (length all.counts.items) m → All (λ (route : AnyRoute). RouteFits route m) all.routes.items) }
    ensures routes { IfOk result (λ all. AreRoutes parts.now all.routes.items all.counts.items) }
{
    let size = functions_in(parts);
    let mut all = Routes {
        routes: Vec::with_capacity(alloc, size)?,
        counts: Vec::with_capacity(alloc, size)?,
    };
    for at in 0..size {
        let number = number_of(at)?;
        let found = found_in(alloc, parts, number)?;
        put(&mut all, found)?;
    }
    Ok(all)
}
