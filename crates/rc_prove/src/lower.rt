// A pass over a function from its entry on.
ghost use Rattle.std.specs.Prelude.{◌≡◌, ◌<◌, ◌≤◌, ◌+◌, ◌||◌, ◌↔◌, suc, Some, IsTrue, IfOk, length, get_or};
ghost use Rattle.std.specs.List.{All};
ghost use Rattle.rc_facts.specs.declared.fact.Fact.{Fact as AnyFact};
ghost use Rattle.rc_facts.specs.Derivable.{Derivable};
ghost use Rattle.rc_facts.specs.Facts.{holds, is_over};
ghost use Rattle.rc_annotations.specs.Annotations.{some_pair};
ghost use Rattle.rc_facts.specs.Flow.{no_set, set_at};
ghost use Rattle.rc_sealed.specs.Carrying.{entry_pairs};
ghost use Rattle.rc_prove.specs.Visiting.{sets_of, IsFrame, PlaceFits, SpotFits};
ghost use Rattle.rc_prove.specs.Lowering.{Lessens, LooksFrom, Lowered};

use crate::meeting::{meet, resume};
use crate::reading::{numbers, read};
use crate::visit::pass;
use rc_base::NoMemory;
use rc_facts::{Fact, FactSet};
use rc_prove_parts::{Losses, Place, Spot, with_first};
use rc_target_sets::TargetSet;
use std::alloc::Global;

/// Adds that each hidden copy and the local of its parameter are in each other's region.
fn add_pairs(work: &mut FactSet, copies: u32)
    requires room { copies + copies ≤ work.old.variables }
    requires few { copies ≤ 128 }
    ensures variables { work.new.variables ≡ work.old.variables }
    ensures facts { (fact : AnyFact) → holds work.new fact ≡ (holds work.old fact || some_pair (entry_pairs copies copies) fact) }
{
    for copy in 0..copies {
        work.add(Fact::In(copy, copies + copy));
        work.add(Fact::In(copies + copy, copy));
    }
}

/// The facts of a set, as a set over more variables.
pub(crate) fn widen(
    alloc: Global,
    set: &FactSet,
    count: u32,
    variables: u32,
) -> Result<FactSet, NoMemory>
    requires count { set.now.variables ≡ count }
    requires room { count ≤ variables }
    requires few { variables ≤ 128 }
    requires over { (fact : AnyFact) → IsTrue (holds set.now fact) → IsTrue (is_over count fact) }
    ensures variables { IfOk result (λ wide. wide.variables ≡ variables) }
    ensures facts { IfOk result (λ wide. (fact : AnyFact) → holds wide fact ≡ holds set.now fact) }
{
    let own = numbers(alloc, count)?;
    read(alloc, set, own.as_slice(), variables)
}

/// What follows where a function begins: from the facts of its entry, and from each parameter being its
/// hidden copy.
pub fn begin(alloc: Global, place: Place, entry: &FactSet) -> Result<FactSet, NoMemory>
    requires entry { entry.now.variables ≡ place.copies }
    requires room { place.copies + place.copies ≤ place.result }
    requires few { suc place.result < 128 }
    requires over { (fact : AnyFact) → IsTrue (holds entry.now fact) → IsTrue (is_over place.copies fact) }
    ensures variables { IfOk result (λ work. work.variables ≡ suc (suc place.result)) }
    ensures facts { IfOk result (λ work. (fact : AnyFact) → IsTrue (holds work fact) ↔ Derivable (suc (suc place.result)) (λ p. holds entry.now p || some_pair (entry_pairs place.copies place.copies) p) fact) }
{
    let mut work = widen(alloc, entry, place.copies, place.result + 2)?;
    add_pairs(&mut work, place.copies);
    work.close();
    Ok(work)
}

/// Goes over the first instructions of a function, from its entry on. `first` is the set of its
/// first instruction, if that is a target.
pub(crate) fn lower(
    alloc: Global,
    place: Place,
    spots: &[Spot],
    first: Option<u32>,
    entries: &mut [FactSet],
    exits: &mut [FactSet],
    frames: &mut [TargetSet],
) -> Result<Losses, NoMemory>
    requires place { PlaceFits place (sets_of entries.old exits.old frames.old) }
    requires spots { All (SpotFits place (sets_of entries.old exits.old frames.old)) spots.now }
    requires there { place.function < length entries.old }
    requires entry { (get_or entries.old place.function no_set).variables ≡ place.copies }
    requires room { place.copies + place.copies ≤ place.result }
    requires over { (fact : AnyFact) → IsTrue (set_at entries.old place.function fact) → IsTrue (is_over place.copies fact) }
    requires first { IsFrame (sets_of entries.old exits.old frames.old) (suc (suc place.result)) first }
    ensures { IfOk result (λ losses. Lowered place spots.now first (sets_of entries.old exits.old frames.old) (sets_of entries.new exits.new frames.new) losses.lost) }
{
    let mut work = begin(alloc, place, &entries[place.function])?;
    let lost = meet(frames, first, &work);
    resume(&mut work, frames, first);
    let more = pass(alloc, place, spots, entries, exits, frames, &mut work)?;
    let lost_some = lost | more.lost;
    let sets = with_first(more.sets, first, lost)?;
    Ok(Losses {
        lost: lost_some,
        sets,
    })
}

/// Goes over instructions that begin at a target.
pub(crate) fn lower_from(
    alloc: Global,
    place: Place,
    spots: &[Spot],
    target: u32,
    entries: &mut [FactSet],
    exits: &mut [FactSet],
    frames: &mut [TargetSet],
) -> Result<Losses, NoMemory>
    requires place { PlaceFits place (sets_of entries.old exits.old frames.old) }
    requires spots { All (SpotFits place (sets_of entries.old exits.old frames.old)) spots.now }
    requires target { IsFrame (sets_of entries.old exits.old frames.old) (suc (suc place.result)) (Some target) }
    ensures { IfOk result (λ losses. Lessens place (λ image. LooksFrom image place spots.now target (sets_of entries.old exits.old frames.old)) (sets_of entries.old exits.old frames.old) (sets_of entries.new exits.new frames.new) losses.lost) }
{
    let mut work = FactSet::empty(alloc, place.result + 2)?;
    resume(&mut work, frames, Some(target));
    pass(alloc, place, spots, entries, exits, frames, &mut work)
}
