// The sets of targets after a search.
ghost use Rattle.std.specs.Prelude.{◌≡◌, ◌++◌, map, take, IfOk, OnOk};
ghost use Rattle.rc_prove.specs.Family.{family_of, items_of};

use crate::start::{Claims, Sets};
use rc_base::NoMemory;
use rc_facts::FactSet;
use rc_target_sets::TargetSet;
use std::alloc::Global;

/// The sets of the targets of a function, as sets of facts.
fn facts_of(alloc: Global, sets: Vec<TargetSet>) -> Result<Vec<FactSet>, NoMemory>
    ensures { IfOk result (λ all. all.items ≡ sets.items) }
{
    let mut all = Vec::with_capacity(alloc, sets.len())?;
    for set in sets {
        all.push(set.into_facts())?;
    }
    Ok(all)
}

/// Those of all functions.
fn all_facts(alloc: Global, functions: Vec<Vec<TargetSet>>) -> Result<Vec<Vec<FactSet>>, NoMemory>
    ensures { IfOk result (λ all. map items_of all.items ≡ map items_of functions.items) }
{
    let mut all = Vec::with_capacity(alloc, functions.len())?;
    for sets in functions {
        all.push(facts_of(alloc, sets)?)?;
    }
    Ok(all)
}

/// The sets that a search has lowered.
pub(crate) fn released(alloc: Global, sets: Sets) -> Result<Claims, NoMemory>
    ensures { IfOk result (λ claims. family_of claims.entries.items claims.exits.items claims.frames.items ≡ family_of sets.entries.items sets.exits.items sets.frames.items) }
{
    let frames = all_facts(alloc, sets.frames)?;
    Ok(Claims {
        entries: sets.entries,
        exits: sets.exits,
        frames,
    })
}
