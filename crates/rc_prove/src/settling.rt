// Parts of functions are gone over until no set that they read loses a fact.
ghost use Rattle.std.specs.Prelude.{length, IfOk, OnOk};
ghost use Rattle.std.specs.List.{All};
ghost use Rattle.rc_prove_parts.specs.declared.route.Route.{Route as AnyRoute};
ghost use Rattle.rc_prove.specs.Family.{family_of, Lessened, Rounded, RouteFits};

use crate::parts::lower_part;
use rc_base::NoMemory;
use rc_facts::FactSet;
use rc_prove_parts::{
    Agenda, Losses, Map, Part, Route, all_parts, map_of, next_of, no_losses, put_losses,
};
use rc_target_sets::TargetSet;
use std::alloc::Global;

/// Goes over a part of a function, if it is there.
fn lower_in(
    alloc: Global,
    routes: &[Route],
    part: Part,
    entries: &mut [FactSet],
    exits: &mut [FactSet],
    frames: &mut [Vec<TargetSet>],
) -> Result<Losses, NoMemory>
    requires { All (λ (route : AnyRoute). RouteFits route (family_of entries.old exits.old frames.old)) routes.now }
    ensures { IfOk result (λ losses. Rounded routes.now 0 (family_of entries.old exits.old frames.old) (family_of entries.new exits.new frames.new) losses.lost) }
{
    if part.route >= routes.len() {
        return Ok(no_losses(alloc));
    }
    lower_part(
        alloc,
        &routes[part.route],
        part.start,
        entries,
        exits,
        frames,
    )
}

/// Goes over parts until a set loses a fact, and puts in those that read what lost one. Says whether one
/// did: if not, no part is left.
fn go_on(
    alloc: Global,
    routes: &[Route],
    map: &Map,
    agenda: &mut Agenda,
    entries: &mut [FactSet],
    exits: &mut [FactSet],
    frames: &mut [Vec<TargetSet>],
) -> Result<bool, NoMemory>
    requires { All (λ (route : AnyRoute). RouteFits route (family_of entries.old exits.old frames.old)) routes.now }
    ensures { IfOk result (Rounded routes.now 0 (family_of entries.old exits.old frames.old) (family_of entries.new exits.new frames.new)) }
{
    'parts: loop {
        let Some(part) = next_of(agenda, map) else {
            return Ok(false);
        };
        let losses = lower_in(alloc, routes, part, entries, exits, frames)?;
        if losses.lost {
            put_losses(agenda, map, part.function, &losses)?;
            return Ok(true);
        }
    }
}

/// Goes over all parts, and over each again when a set that it reads lost a fact.
pub(crate) fn settle(
    alloc: Global,
    routes: &[Route],
    entries: &mut [FactSet],
    exits: &mut [FactSet],
    frames: &mut [Vec<TargetSet>],
) -> Result<(), NoMemory>
    requires { All (λ (route : AnyRoute). RouteFits route (family_of entries.old exits.old frames.old)) routes.now }
    ensures { OnOk result (Lessened routes.now (family_of entries.old exits.old frames.old) (family_of entries.new exits.new frames.new)) }
{
    let map = map_of(alloc, routes, entries.len())?;
    let mut agenda = all_parts(alloc, map.parts.len())?;
    'losses: loop {
        if !go_on(alloc, routes, &map, &mut agenda, entries, exits, frames)? {
            return Ok(());
        }
    }
}
