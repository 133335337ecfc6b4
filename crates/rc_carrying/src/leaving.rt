// One set of facts behind an instruction.
ghost use Rattle.std.specs.Prelude.{◌≡◌, ◌<◌, ◌≤◌, ◌||◌, ◌&&◌, not, IsTrue, OnOk};
ghost use Rattle.rc_facts.specs.declared.fact.Fact.{Fact as AnyFact};
ghost use Rattle.rc_facts.specs.declared.fact.Fact.TheVariants.{In, Up};
ghost use Rattle.rc_facts.specs.Facts.{holds, is_over, names, same_fact};
ghost use Rattle.rc_sealed.specs.Carrying.{is_assigned, speaks};
ghost use Rattle.rc_rlang.specs.RegionFlow.{assigned};
ghost use Rattle.rc_graph.specs.Nodes.{effect_of};
ghost use Rattle.rc_edges.specs.Edges.{EffectBelow};
ghost use Rattle.rc_crossing.specs.Fitting.{CallFits};
ghost use Rattle.rc_carrying.specs.Left.{is_own, stay, HasOwn, IsReady};
ghost use Rattle.rc_carrying.specs.Passing.{CarriesOver};

use rc_base::NoMemory;
use rc_crossing::cross;
use rc_facts::{Fact, FactSet};
use rc_graph::Effect;
use std::alloc::Global;

/// Adds that a variable is in its own region, and above itself.
fn add_own(set: &mut FactSet, x: u32)
    requires { x < set.old.variables }
    ensures variables { set.new.variables ≡ set.old.variables }
    ensures facts { (fact : AnyFact) → holds set.new fact ≡ ((holds set.old fact || same_fact (In x x) fact) || same_fact (Up x x) fact) }
{
    set.add(Fact::In(x, x));
    set.add(Fact::Up(x, x));
}

/// Drops what is known of a variable, but that it is in its own region and above itself.
fn reset(set: &mut FactSet, x: u32)
    requires { x < set.old.variables }
    ensures variables { set.new.variables ≡ set.old.variables }
    ensures facts { (fact : AnyFact) → holds set.new fact ≡ (((holds set.old fact && not (names x fact)) || same_fact (In x x) fact) || same_fact (Up x x) fact) }
{
    set.forget(x);
    add_own(set, x);
}

/// Whether it is the assigned variable.
fn is_it(assigned: Option<u32>, x: u32) -> bool
    ensures { result ≡ is_assigned assigned x }
{
    match assigned {
        None => false,
        Some(y) => x == y,
    }
}

/// Drops what is known of the variables from `low` to below `top`, but of the assigned one.
fn drop_gone(set: &mut FactSet, low: u32, top: u32, assigned: Option<u32>)
    requires low { low ≤ top }
    requires top { top ≤ set.old.variables }
    requires over { (fact : AnyFact) → IsTrue (holds set.old fact) → IsTrue (is_over set.old.variables fact) }
    requires own { HasOwn set.old.variables (holds set.old) }
    ensures variables { set.new.variables ≡ set.old.variables }
    ensures facts { (fact : AnyFact) → holds set.new fact ≡ (holds set.old fact && (speaks (stay low top assigned) fact || is_own fact)) }
{
    for x in low..top {
        if !is_it(assigned, x) {
            reset(set, x);
        }
    }
}

/// The variable that an effect assigns, if any.
fn assigned_by(effect: &Effect) -> Option<u32>
    ensures { result ≡ assigned (effect_of effect.now) }
{
    match effect {
        Effect::Nulled(x)
        | Effect::Moved(x, _)
        | Effect::Fixed(x)
        | Effect::Beside(x, _)
        | Effect::Made(x)
        | Effect::Under(x, _)
        | Effect::Loaded(x, ..) => Some(*x),
        Effect::Called { result, .. } => *result,
        _ => None,
    }
}

/// Carries a set over an instruction with any effect.
fn carry_any(
    alloc: Global,
    set: &mut FactSet,
    effect: &Effect,
    exits: &[FactSet],
    scratch: u32,
    low: u32,
    top: u32,
) -> Result<(), NoMemory>
    requires ready { IsReady set.old.variables scratch (holds set.old) }
    requires below { EffectBelow scratch (effect_of effect.now) }
    requires call { CallFits exits.now (effect_of effect.now) }
    requires low { low ≤ top }
    requires top { top ≤ scratch }
    ensures variables { set.new.variables ≡ set.old.variables }
    ensures facts { OnOk result (CarriesOver set.old.variables scratch exits.now (effect_of effect.now) low top (holds set.old) (holds set.new)) }
{
    set.forget(scratch);
    cross(alloc, set, effect, exits, scratch)?;
    add_own(set, scratch);
    drop_gone(set, low, top, assigned_by(effect));
    Ok(())
}

/// Carries a set over an instruction with this effect, behind which nothing stays known of the variables
/// from `low` to below `top`, but of the assigned one.
///
/// # Errors
///
/// Out of memory.
pub fn carry(
    alloc: Global,
    set: &mut FactSet,
    effect: &Effect,
    exits: &[FactSet],
    scratch: u32,
    low: u32,
    top: u32,
) -> Result<(), NoMemory>
    requires ready { IsReady set.old.variables scratch (holds set.old) }
    requires below { EffectBelow scratch (effect_of effect.now) }
    requires call { CallFits exits.now (effect_of effect.now) }
    requires low { low ≤ top }
    requires top { top ≤ scratch }
    ensures variables { set.new.variables ≡ set.old.variables }
    ensures facts { OnOk result (CarriesOver set.old.variables scratch exits.now (effect_of effect.now) low top (holds set.old) (holds set.new)) }
{
    if let Effect::Nothing = effect {
        drop_gone(set, low, top, None);
        return Ok(());
    }
    carry_any(alloc, set, effect, exits, scratch, low, top)
}
