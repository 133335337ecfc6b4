// Sets that lose what isn't given at an instruction.
ghost use Rattle.std.specs.Prelude.{◌≡◌, ◌<◌, ◌≤◌, ◌↔◌, ◌++◌, ◌∷◌, [], ℕ, suc, true, Some, None, IsTrue, IfOk, IfSome, Option, length, get_or};
ghost use Rattle.std.specs.List.{range_with_len};
ghost use Rattle.rc_facts.specs.declared.fact.Fact.{Fact};
ghost use Rattle.rc_facts.specs.Derivable.{Derivable};
ghost use Rattle.rc_facts.specs.Facts.{holds};
ghost use Rattle.rc_rlang.specs.RegionFlow.{called};
ghost use Rattle.rc_facts.specs.Flow.{no_set, set_at};
ghost use Rattle.rc_graph.specs.Nodes.{effect_of};
ghost use Rattle.rc_edges.specs.Reading.{Loses};
ghost use Rattle.rc_edges.specs.Boundaries.{Callable, CallGives, CallReady};
ghost use Rattle.rc_prove.specs.Visiting.{ExitGives, FrameGives};
ghost use Rattle.rc_target_sets.specs.Shut.{IsShut};

use crate::losing::{lose, lose_target};
use crate::reading::{numbers, read};
use rc_base::NoMemory;
use rc_facts::FactSet;
use rc_graph::Effect;
use rc_prove_parts::Place;
use rc_target_sets::TargetSet;
use std::alloc::Global;

/// Keeps at the entry of a function what a call of it gives.
fn give_arguments(
    alloc: Global,
    function: u32,
    arguments: &[u32],
    work: &FactSet,
    entries: &mut [FactSet],
) -> Result<bool, NoMemory>
    requires { Callable function arguments.now work.now.variables entries.old }
    ensures { (x : Option ℕ) → IfOk result (λ lost. Loses lost entries.old entries.new (CallGives (called x function arguments.now) work.now)) }
{
    let count = u32::try_from(arguments.len()).map_err(|_| NoMemory)?;
    let found = read(alloc, work, arguments, count)?;
    Ok(lose(entries, function as usize, &found))
}

/// Keeps at an entry what an instruction gives, where it is a call.
pub(crate) fn give_call(
    alloc: Global,
    effect: &Effect,
    work: &FactSet,
    entries: &mut [FactSet],
) -> Result<bool, NoMemory>
    requires { CallReady (effect_of effect.now) work.now.variables entries.old }
    ensures { IfOk result (λ lost. Loses lost entries.old entries.new (CallGives (effect_of effect.now) work.now)) }
{
    match effect {
        Effect::Called {
            result: _,
            function,
            arguments,
        } => give_arguments(alloc, *function, arguments.as_slice(), work, entries),
        _ => Ok(false),
    }
}

/// The variables that an exit speaks of: the hidden copies, and the result.
fn exit_names(alloc: Global, place: Place) -> Result<Vec<u32>, NoMemory>
    ensures { IfOk result (λ all. all.items ≡ range_with_len 0 place.copies ++ place.result ∷ []) }
{
    let mut all = numbers(alloc, place.copies)?;
    all.push(place.result)?;
    Ok(all)
}

/// Keeps at the exit of a function what a return gives.
fn give_result(
    alloc: Global,
    place: Place,
    work: &FactSet,
    exits: &mut [FactSet],
) -> Result<bool, NoMemory>
    requires there { place.function < length exits.old }
    requires own { (get_or exits.old place.function no_set).variables ≡ suc place.copies }
    requires copies { place.copies ≤ place.result }
    requires few { suc place.result < 128 }
    requires work { work.now.variables ≡ suc (suc place.result) }
    ensures { IfOk result (λ lost. Loses lost exits.old exits.new (ExitGives place true work.now)) }
{
    let names = exit_names(alloc, place)?;
    let found = read(alloc, work, names.as_slice(), place.copies + 1)?;
    Ok(lose(exits, place.function, &found))
}

/// Keeps at the exit of a function what an instruction gives, where it is a return.
pub(crate) fn give_exit(
    alloc: Global,
    place: Place,
    returns: bool,
    work: &FactSet,
    exits: &mut [FactSet],
) -> Result<bool, NoMemory>
    requires there { place.function < length exits.old }
    requires own { (get_or exits.old place.function no_set).variables ≡ suc place.copies }
    requires copies { place.copies ≤ place.result }
    requires few { suc place.result < 128 }
    requires work { work.now.variables ≡ suc (suc place.result) }
    ensures { IfOk result (λ lost. Loses lost exits.old exits.new (ExitGives place returns work.now)) }
{
    if !returns {
        return Ok(false);
    }
    give_result(alloc, place, work, exits)
}

/// Keeps of a frame what the working set has, if one is named.
pub(crate) fn meet(frames: &mut [TargetSet], at: Option<u32>, work: &FactSet) -> bool
    requires there { IfSome at (λ r. (r < length frames.old) × ((get_or frames.old r no_set).variables ≡ work.now.variables)) }
    requires shut { IsShut work.now }
    ensures { Loses result frames.old frames.new (FrameGives at work.now) }
{
    match at {
        None => false,
        Some(number) => lose_target(frames, number as usize, work),
    }
}

/// Takes what follows from a frame, if one is named.
pub fn restart(work: &mut FactSet, frames: &[FactSet], at: Option<u32>)
    requires { IfSome at (λ r. (r < length frames.now) × ((get_or frames.now r no_set).variables ≡ work.old.variables)) }
    ensures variables { work.new.variables ≡ work.old.variables }
    ensures kept { at ≡ None → work.new ≡ work.old }
    ensures whole { (r : ℕ) → at ≡ Some r → (fact : Fact) → IsTrue (holds work.new fact) ↔ Derivable work.old.variables (set_at frames.now r) fact }
{
    if let Some(number) = at {
        work.copy(&frames[number as usize]);
        work.close();
    }
}

/// Takes what follows from the set of a target, if one is named.
pub(crate) fn resume(work: &mut FactSet, frames: &[TargetSet], at: Option<u32>)
    requires { IfSome at (λ r. (r < length frames.now) × ((get_or frames.now r no_set).variables ≡ work.old.variables)) }
    ensures variables { work.new.variables ≡ work.old.variables }
    ensures kept { at ≡ None → work.new ≡ work.old }
    ensures whole { (r : ℕ) → at ≡ Some r → (fact : Fact) → IsTrue (holds work.new fact) ↔ Derivable work.old.variables (set_at frames.now r) fact }
{
    if let Some(number) = at {
        frames[number as usize].give(work);
    }
}
