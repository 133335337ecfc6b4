// Parts of functions are gone over.
ghost use Rattle.std.specs.Prelude.{◌≡◌, ◌≤◌, length, IfOk, Some};
ghost use Rattle.rc_prove.specs.Family.{family_of, LessenedAt, RouteFits};
ghost use Rattle.rc_prove.specs.Lowering.{LeadsBehind};

use crate::lower::{lower, lower_from};
use rc_base::NoMemory;
use rc_facts::FactSet;
use rc_prove_parts::{Losses, Route, Start, end_of, entry_end, no_losses};
use rc_target_sets::TargetSet;
use std::alloc::Global;

/// Goes over the part at the entry.
fn lower_first(
    alloc: Global,
    route: &Route,
    entries: &mut [FactSet],
    exits: &mut [FactSet],
    frames: &mut [Vec<TargetSet>],
) -> Result<Losses, NoMemory>
    requires { RouteFits route.now (family_of entries.old exits.old frames.old) }
    ensures { IfOk result (λ losses. LessenedAt route.now (family_of entries.old exits.old frames.old) (family_of entries.new exits.new frames.new) losses.lost) }
{
    let place = route.place;
    let spots = route.spots.as_slice();
    let end = entry_end(route);
    lower(
        alloc,
        place,
        &spots[..end],
        route.first,
        entries,
        exits,
        frames[place.function].as_mut_slice(),
    )
}

/// Goes over the part at the first instruction, which is a target with this set.
fn lower_at_first(
    alloc: Global,
    route: &Route,
    target: u32,
    entries: &mut [FactSet],
    exits: &mut [FactSet],
    frames: &mut [Vec<TargetSet>],
) -> Result<Losses, NoMemory>
    requires fits { RouteFits route.now (family_of entries.old exits.old frames.old) }
    requires first { route.now.first ≡ Some target }
    ensures { IfOk result (λ losses. LessenedAt route.now (family_of entries.old exits.old frames.old) (family_of entries.new exits.new frames.new) losses.lost) }
{
    let place = route.place;
    let spots = route.spots.as_slice();
    let end = end_of(spots, 0);
    lower_from(
        alloc,
        place,
        &spots[..end],
        target,
        entries,
        exits,
        frames[place.function].as_mut_slice(),
    )
}

/// Goes over the part behind an instruction, which begins at a target with this set.
fn lower_behind(
    alloc: Global,
    route: &Route,
    at: usize,
    target: u32,
    entries: &mut [FactSet],
    exits: &mut [FactSet],
    frames: &mut [Vec<TargetSet>],
) -> Result<Losses, NoMemory>
    requires fits { RouteFits route.now (family_of entries.old exits.old frames.old) }
    requires leads { LeadsBehind route.now.spots.items at target }
    ensures { IfOk result (λ losses. LessenedAt route.now (family_of entries.old exits.old frames.old) (family_of entries.new exits.new frames.new) losses.lost) }
{
    let place = route.place;
    let spots = route.spots.as_slice();
    let from = at + 1;
    let end = end_of(spots, from);
    lower_from(
        alloc,
        place,
        &spots[from..end],
        target,
        entries,
        exits,
        frames[place.function].as_mut_slice(),
    )
}

/// Goes over the part at the first instruction, if that is a target.
fn lower_target(
    alloc: Global,
    route: &Route,
    entries: &mut [FactSet],
    exits: &mut [FactSet],
    frames: &mut [Vec<TargetSet>],
) -> Result<Losses, NoMemory>
    requires { RouteFits route.now (family_of entries.old exits.old frames.old) }
    ensures { IfOk result (λ losses. LessenedAt route.now (family_of entries.old exits.old frames.old) (family_of entries.new exits.new frames.new) losses.lost) }
{
    let Some(target) = route.first else {
        return Ok(no_losses(alloc));
    };
    lower_at_first(alloc, route, target, entries, exits, frames)
}

/// Goes over the part behind an instruction, if one begins there.
fn lower_next(
    alloc: Global,
    route: &Route,
    at: usize,
    entries: &mut [FactSet],
    exits: &mut [FactSet],
    frames: &mut [Vec<TargetSet>],
) -> Result<Losses, NoMemory>
    requires { RouteFits route.now (family_of entries.old exits.old frames.old) }
    ensures { IfOk result (λ losses. LessenedAt route.now (family_of entries.old exits.old frames.old) (family_of entries.new exits.new frames.new) losses.lost) }
{
    let Some(spot) = route.spots.as_slice().get(at) else {
        return Ok(no_losses(alloc));
    };
    let Some(target) = spot.next.set() else {
        return Ok(no_losses(alloc));
    };
    lower_behind(alloc, route, at, target, entries, exits, frames)
}

/// Goes over the part that begins there, if one does.
pub(crate) fn lower_part(
    alloc: Global,
    route: &Route,
    start: Start,
    entries: &mut [FactSet],
    exits: &mut [FactSet],
    frames: &mut [Vec<TargetSet>],
) -> Result<Losses, NoMemory>
    requires { RouteFits route.now (family_of entries.old exits.old frames.old) }
    ensures { IfOk result (λ losses. LessenedAt route.now (family_of entries.old exits.old frames.old) (family_of entries.new exits.new frames.new) losses.lost) }
{
    match start {
        Start::Entry => lower_first(alloc, route, entries, exits, frames),
        Start::First => lower_target(alloc, route, entries, exits, frames),
        Start::Behind(at) => lower_next(alloc, route, at, entries, exits, frames),
    }
}
