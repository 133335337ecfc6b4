// What a pass lost.

ghost use Rattle.std.specs.Prelude.{◌≡◌, false};

use crate::spot::Spot;
use rc_base::NoMemory;
use rc_graph::Effect;
use std::alloc::Global;

/// A set that an instruction gives facts to.
#[derive(Clone, Copy)]
pub enum Loss {
    /// That of the entry of a function.
    Entry(usize),
    /// That of the exit of the function that is gone over.
    Exit,
    /// That of one of its targets.
    Target(usize),
}

/// Whether sets lost facts, and which may have.
#[derive(Drop)]
pub struct Losses {
    /// Whether one did.
    pub lost: bool,
    /// Those that may have.
    pub sets: Vec<Loss>,
}

/// No set lost a fact.
pub fn no_losses(alloc: Global) -> Losses
    ensures { result.lost ≡ false }
{
    Losses {
        lost: false,
        sets: Vec::new(alloc),
    }
}

/// Notes a target, if one is named.
fn note_target(sets: &mut Vec<Loss>, target: Option<u32>) -> Result<(), NoMemory> {
    if let Some(number) = target {
        sets.push(Loss::Target(number as usize))?;
    }
    Ok(())
}

/// With the set of the first instruction noted, if that is a target and its set lost a fact.
pub fn with_first(
    mut sets: Vec<Loss>,
    first: Option<u32>,
    lost: bool,
) -> Result<Vec<Loss>, NoMemory> {
    if lost {
        note_target(&mut sets, first)?;
    }
    Ok(sets)
}

/// Notes the sets that an instruction gives facts to, if one of them lost a fact.
pub fn note(sets: &mut Vec<Loss>, spot: &Spot, lost: bool) -> Result<(), NoMemory> {
    if !lost {
        return Ok(());
    }
    if spot.returns {
        sets.push(Loss::Exit)?;
    }
    note_target(sets, spot.jumped.set())?;
    note_target(sets, spot.fallen.set())?;
    let Effect::Called {
        result: _,
        function,
        arguments: _,
    } = &spot.effect
    else {
        return Ok(());
    };
    Ok(sets.push(Loss::Entry(*function as usize))?)
}
