// A visit of one instruction, and a pass over all of a function.
ghost use Rattle.std.specs.Prelude.{◌≡◌, suc, length, IfOk, OnOk};
ghost use Rattle.std.specs.List.{All};
ghost use Rattle.rc_facts.specs.Facts.{holds};
ghost use Rattle.rc_carrying.specs.Left.{IsReady};
ghost use Rattle.rc_prove.specs.Visiting.{sets_of, PlaceFits, SpotFits, Visited, WentThrough};

use crate::meeting::{give_call, give_exit, meet, resume};
use rc_base::NoMemory;
use rc_carrying::carry;
use rc_facts::FactSet;
use rc_prove_parts::{Losses, Place, Spot, note};
use rc_target_sets::TargetSet;
use std::alloc::Global;

/// Carries the working set over an instruction, and keeps of the other sets what it gives them. Says
/// whether one of them lost a fact.
fn visit(
    alloc: Global,
    place: Place,
    spot: &Spot,
    entries: &mut [FactSet],
    exits: &mut [FactSet],
    frames: &mut [TargetSet],
    work: &mut FactSet,
) -> Result<bool, NoMemory>
    requires place { PlaceFits place (sets_of entries.old exits.old frames.old) }
    requires spot { SpotFits place (sets_of entries.old exits.old frames.old) spot.now }
    requires work { work.old.variables ≡ suc (suc place.result) }
    requires ready { IsReady (suc (suc place.result)) (suc place.result) (holds work.old) }
    ensures variables { work.new.variables ≡ work.old.variables }
    ensures visited { IfOk result (Visited place spot.now (sets_of entries.old exits.old frames.old) (sets_of entries.new exits.new frames.new) work.old work.new) }
{
    let called = give_call(alloc, &spot.effect, work, entries)?;
    carry(
        alloc,
        work,
        &spot.effect,
        exits,
        place.result + 1,
        spot.low as u32,
        spot.top as u32,
    )?;
    let left = give_exit(alloc, place, spot.returns, work, exits)?;
    let jumped = spot.jumped.set();
    let fallen = spot.fallen.set();
    let next = spot.next.set();
    let led = meet(frames, jumped, work);
    let fell = meet(frames, fallen, work);
    resume(work, frames, next);
    Ok(called | (left | (led | fell)))
}

/// Goes over instructions of a function with the working set, and says whether another set lost a fact.
pub(crate) fn pass(
    alloc: Global,
    place: Place,
    spots: &[Spot],
    entries: &mut [FactSet],
    exits: &mut [FactSet],
    frames: &mut [TargetSet],
    work: &mut FactSet,
) -> Result<Losses, NoMemory>
    requires place { PlaceFits place (sets_of entries.old exits.old frames.old) }
    requires spots { All (SpotFits place (sets_of entries.old exits.old frames.old)) spots.now }
    requires work { work.old.variables ≡ suc (suc place.result) }
    requires ready { IsReady (suc (suc place.result)) (suc place.result) (holds work.old) }
    ensures { IfOk result (λ losses. WentThrough place spots.now (sets_of entries.old exits.old frames.old) (sets_of entries.new exits.new frames.new) work.old work.new losses.lost) }
{
    let mut lost = false;
    let mut sets = Vec::new(alloc);
    for at in 0..spots.len() {
        let more = visit(alloc, place, &spots[at], entries, exits, frames, work)?;
        note(&mut sets, &spots[at], more)?;
        lost = lost | more;
    }
    Ok(Losses { lost, sets })
}
