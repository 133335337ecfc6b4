// Rounds over functions, until no set loses a fact.
ghost use Rattle.std.specs.Prelude.{◌≡◌, length, IfOk, OnOk, map};
ghost use Rattle.std.specs.List.{All};
ghost use Rattle.rc_prove_parts.specs.declared.route.Route.{Route as AnyRoute};
ghost use Rattle.rc_prove.specs.Family.{family_of, Found, LoweredAt, RouteFits, Rounded};

use crate::lower::lower;
use crate::settling::settle;
use rc_base::NoMemory;
use rc_facts::FactSet;
use rc_prove_parts::Route;
use rc_target_sets::TargetSet;
use std::alloc::Global;

/// Goes over a function, and says whether a set lost a fact.
fn lower_at(
    alloc: Global,
    route: &Route,
    entries: &mut [FactSet],
    exits: &mut [FactSet],
    frames: &mut [Vec<TargetSet>],
) -> Result<bool, NoMemory>
    requires { RouteFits route.now (family_of entries.old exits.old frames.old) }
    ensures { IfOk result (LoweredAt route.now (family_of entries.old exits.old frames.old) (family_of entries.new exits.new frames.new)) }
{
    let place = route.place;
    let losses = lower(
        alloc,
        place,
        route.spots.as_slice(),
        route.first,
        entries,
        exits,
        frames[place.function].as_mut_slice(),
    )?;
    Ok(losses.lost)
}

/// Goes over all functions, and says whether a set lost a fact.
fn round(
    alloc: Global,
    routes: &[Route],
    entries: &mut [FactSet],
    exits: &mut [FactSet],
    frames: &mut [Vec<TargetSet>],
) -> Result<bool, NoMemory>
    requires { All (λ (route : AnyRoute). RouteFits route (family_of entries.old exits.old frames.old)) routes.now }
    ensures { IfOk result (Rounded routes.now (length routes.now) (family_of entries.old exits.old frames.old) (family_of entries.new exits.new frames.new)) }
{
    let mut lost = false;
    for at in 0..routes.len() {
        let more = lower_at(alloc, &routes[at], entries, exits, frames)?;
        lost = lost | more;
    }
    Ok(lost)
}

/// Lowers the sets until a round over all functions loses nothing. They are then the greatest that prove
/// all functions, among those that they were greater than. Sets that were settled before mostly lose
/// nothing in the first round.
pub(crate) fn search(
    alloc: Global,
    routes: &[Route],
    entries: &mut [FactSet],
    exits: &mut [FactSet],
    frames: &mut [Vec<TargetSet>],
) -> Result<(), NoMemory>
    requires { All (λ (route : AnyRoute). RouteFits route (family_of entries.old exits.old frames.old)) routes.now }
    ensures { OnOk result (Found routes.now (family_of entries.old exits.old frames.old) (family_of entries.new exits.new frames.new)) }
{
    settle(alloc, routes, entries, exits, frames)?;
    'rounds: loop {
        if !round(alloc, routes, entries, exits, frames)? {
            return Ok(());
        }
    }
}
