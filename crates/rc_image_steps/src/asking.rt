// What an instruction asks, as lists of facts.
ghost use Rattle.std.specs.Prelude.{◌≡◌, ◌<◌, ◌≤◌, ◌↔◌, ◌++◌, ◌∷◌, [], length, option_to_list, IsTrue, IfOk, OnOk};
ghost use Rattle.rc_facts.specs.declared.fact.Fact.{Fact as AnyFact};
ghost use Rattle.rc_code.specs.Soundness.{instruction_at};
ghost use Rattle.rc_graph.specs.Nodes.{effect_of};
ghost use Rattle.rc_annotations.specs.Annotations.{asked_of};
ghost use Rattle.rc_claims.specs.Bits.{claims};
ghost use Rattle.rc_claims.specs.Claims.{known_at, ProofsFit};
ghost use Rattle.rc_sealed.specs.Carrying.{effect_at};
ghost use Rattle.rc_sealed.specs.Claimed.{annotation_of};
ghost use Rattle.rc_carrying.specs.Asked.{AskedBefore, AskedBehind};
ghost use Rattle.rc_carrying.specs.Passing.{listed};
ghost use Rattle.rc_image_claims.specs.Naming.{is_listed, Named};
ghost use Rattle.rc_image_steps.specs.Sites.{function_in, image_of, IsSite};
ghost use Rattle.rc_image_steps.specs.Ways.{arguments_in};

use crate::framing::{add_exit, add_target, known_of};
use crate::site::Site;
use crate::ways::{Asks, arguments_of, asked_of, asks_of, ways_of};
use rc_base::NoMemory;
use rc_claims::Proofs;
use rc_facts::Fact;
use rc_graph::Effect;
use rc_image_claims::add_claims;
use rc_image_counts::{function_of, instruction_of};
use std::alloc::Global;

/// The facts of the entry of a function, with the arguments of a call as names.
fn of_entry(
    alloc: Global,
    proofs: &Proofs,
    number: u32,
    effect: &Effect,
) -> Result<Vec<Fact>, NoMemory>
    requires there { number < length proofs.now.functions }
    requires few { length (arguments_in (effect_of effect.now)) ≤ 128 }
    ensures { IfOk result (λ facts. (fact : AnyFact) → IsTrue (listed facts.items fact) ↔ Named (claims (length (arguments_in (effect_of effect.now))) (known_at proofs.now number).entry) (arguments_in (effect_of effect.now)) fact) }
{
    let mut facts = Vec::new(alloc);
    let known = known_of(proofs, number);
    add_claims(&mut facts, known.entry.as_slice(), arguments_of(effect))?;
    Ok(facts)
}

/// The fact that the check of a store asks, if any.
fn of_check(alloc: Global, effect: &Effect) -> Result<Vec<Fact>, NoMemory>
    ensures { IfOk result (λ facts. facts.items ≡ option_to_list (asked_of (effect_of effect.now))) }
{
    let mut facts = Vec::new(alloc);
    if let Some(fact) = asked_of(effect) {
        facts.push(fact)?;
    }
    Ok(facts)
}

/// What has to follow from what is known before an instruction that does that.
pub(crate) fn asked_before(
    alloc: Global,
    site: &Site<'_>,
    proofs: &Proofs,
    at: u32,
    effect: &Effect,
) -> Result<Vec<Fact>, NoMemory>
    requires site { IsSite site.now }
    requires claims { ProofsFit site.now.parts.now proofs.now }
    requires there { at < length (function_in site.now).code }
    requires effect { effect_of effect.now ≡ effect_at (image_of site.now) (function_in site.now) at }
    ensures { IfOk result (λ facts. (fact : AnyFact) → IsTrue (listed facts.items fact) ↔ AskedBefore (image_of site.now) (annotation_of site.now.parts.now proofs.now) site.now.number at fact) }
{
    let function = function_of(site.parts, site.number);
    match asks_of(instruction_of(function, at as usize)) {
        Asks::Entry(number) => of_entry(alloc, proofs, number, effect),
        Asks::Check => of_check(alloc, effect),
        Asks::Nothing => Ok(Vec::new(alloc)),
    }
}

/// What has to follow from what is known behind an instruction.
pub(crate) fn asked_behind(
    alloc: Global,
    site: &Site<'_>,
    proofs: &Proofs,
    at: u32,
) -> Result<Vec<Fact>, NoMemory>
    requires site { IsSite site.now }
    requires claims { ProofsFit site.now.parts.now proofs.now }
    requires there { at < length (function_in site.now).code }
    ensures { IfOk result (λ facts. (fact : AnyFact) → IsTrue (listed facts.items fact) ↔ AskedBehind (image_of site.now) (annotation_of site.now.parts.now proofs.now) site.now.number at fact) }
{
    let function = function_of(site.parts, site.number);
    let ways = ways_of(instruction_of(function, at as usize));
    let mut facts = Vec::new(alloc);
    add_exit(alloc, &mut facts, site, proofs, ways.leaves)?;
    add_target(alloc, &mut facts, site, proofs, ways.falls, at + 1)?;
    add_target(alloc, &mut facts, site, proofs, ways.leads, ways.to)?;
    Ok(facts)
}
