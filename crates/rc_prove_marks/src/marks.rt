// The marks of a function.
ghost use Rattle.std.specs.Prelude.{◌≡◌, ◌<◌, false, length, replicate, IfOk};
ghost use Rattle.rc_facts.specs.Facts.{holds};
ghost use Rattle.rc_annotations.specs.Annotations.{asked_of};
ghost use Rattle.rc_code.specs.Running.{Reading};
ghost use Rattle.rc_graph.specs.Nodes.{effect_of};
ghost use Rattle.rc_prove.specs.Family.{claimed, family_of, IsRoute, RouteFits};
ghost use Rattle.rc_prove_marks.specs.Checked.{TellsChecked};
ghost use Rattle.rc_prove_marks.specs.Going.{AreFirst, IsAt, WentOn};

use crate::asking::{proves, some_asks};
use rc_base::NoMemory;
use rc_carrying::carry;
use rc_facts::FactSet;
use rc_prove::{Claims, begin, restart};
use rc_prove_parts::Route;
use std::alloc::Global;

/// The set of what follows before the first instruction.
fn enter(alloc: Global, route: &Route, claims: &Claims) -> Result<FactSet, NoMemory>
    requires { RouteFits route.now (family_of claims.now.entries.items claims.now.exits.items claims.now.frames.items) }
    ensures { IfOk result (IsAt route.now (family_of claims.now.entries.items claims.now.exits.items claims.now.frames.items) 0) }
{
    let place = route.place;
    let mut work = begin(alloc, place, &claims.entries[place.function])?;
    restart(
        &mut work,
        claims.frames[place.function].as_slice(),
        route.first,
    );
    Ok(work)
}

/// Whether the set proves the check of an instruction. It goes on over that.
fn go_on(
    alloc: Global,
    route: &Route,
    claims: &Claims,
    at: usize,
    work: &mut FactSet,
) -> Result<bool, NoMemory>
    requires fits { RouteFits route.now (family_of claims.now.entries.items claims.now.exits.items claims.now.frames.items) }
    requires there { at < length route.now.spots.items }
    requires here { IsAt route.now (family_of claims.now.entries.items claims.now.exits.items claims.now.frames.items) at work.old }
    ensures { IfOk result (WentOn route.now (family_of claims.now.entries.items claims.now.exits.items claims.now.frames.items) at work.new) }
{
    let place = route.place;
    let spot = &route.spots[at];
    let proved = proves(work, &spot.effect);
    carry(
        alloc,
        work,
        &spot.effect,
        claims.exits.as_slice(),
        place.result + 1,
        spot.low as u32,
        spot.top as u32,
    )?;
    let next = spot.next.set();
    restart(work, claims.frames[place.function].as_slice(), next);
    Ok(proved)
}

/// The marks of so many instructions of which none asks a fact.
fn no_marks(alloc: Global, count: usize) -> Result<Vec<bool>, NoMemory>
    ensures { IfOk result (λ marks. marks.items ≡ replicate count false) }
{
    Ok(Vec::from_elem(alloc, false, count)?)
}

/// The marks that a pass over the function finds.
fn marks_through(alloc: Global, route: &Route, claims: &Claims) -> Result<Vec<bool>, NoMemory>
    requires { RouteFits route.now (family_of claims.now.entries.items claims.now.exits.items claims.now.frames.items) }
    ensures { IfOk result (λ marks. AreFirst route.now (family_of claims.now.entries.items claims.now.exits.items claims.now.frames.items) (length route.now.spots.items) marks.items) }
{
    let mut work = enter(alloc, route, claims)?;
    let mut marks = Vec::with_capacity(alloc, route.spots.len())?;
    for at in 0..route.spots.len() {
        let proved = go_on(alloc, route, claims, at, &mut work)?;
        marks.push(proved)?;
    }
    Ok(marks)
}

/// For each instruction of a function whether the facts prove the check of a store there.
///
/// # Errors
///
/// Out of memory.
pub fn marks_of(alloc: Global, route: &Route, claims: &Claims) -> Result<Vec<bool>, NoMemory>
    requires { RouteFits route.now (family_of claims.now.entries.items claims.now.exits.items claims.now.frames.items) }
    ensures { IfOk result (λ marks. (image : Reading) → IsRoute image (family_of claims.now.entries.items claims.now.exits.items claims.now.frames.items) route.now → TellsChecked image (claimed image (family_of claims.now.entries.items claims.now.exits.items claims.now.frames.items)) route.now.place.function marks.items) }
{
    if !some_asks(route.spots.as_slice()) {
        return no_marks(alloc, route.spots.len());
    }
    marks_through(alloc, route, claims)
}
