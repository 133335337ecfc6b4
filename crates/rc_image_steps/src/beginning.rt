// What is known where a function begins.
ghost use Rattle.std.specs.Prelude.{◌≡◌, ◌<◌, ◌≤◌, ◌+◌, ◌||◌, IfOk, OnOk};
ghost use Rattle.rc_facts.specs.declared.fact.Fact.{Fact as AnyFact};
ghost use Rattle.rc_facts.specs.declared.fact.Fact.TheVariants.{In};
ghost use Rattle.rc_facts.specs.Facts.{same_fact};
ghost use Rattle.rc_annotations.specs.Annotations.{some_pair};
ghost use Rattle.rc_claims.specs.Claims.{ProofsFit};
ghost use Rattle.rc_claims.specs.Counts.{copies};
ghost use Rattle.rc_sealed.specs.Carrying.{entry_pairs};
ghost use Rattle.rc_sealed.specs.Claimed.{annotation_of};
ghost use Rattle.rc_image_claims.specs.Naming.{is_listed};
ghost use Rattle.rc_image_steps.specs.Sites.{function_in, IsSite};

use crate::framing::known_of;
use crate::site::Site;
use rc_base::NoMemory;
use rc_claims::Proofs;
use rc_facts::Fact;
use rc_image_claims::{add_claims, numbers_below};
use std::alloc::Global;

/// Puts behind the others that two variables are in each other's region.
fn add_pair(out: &mut Vec<Fact>, x: u32, y: u32) -> Result<(), NoMemory>
    ensures { OnOk result ((fact : AnyFact) → is_listed out.new.items fact ≡ (is_listed out.old.items fact || (same_fact fact (In x y) || same_fact fact (In y x)))) }
{
    out.push(Fact::In(x, y))?;
    out.push(Fact::In(y, x))?;
    Ok(())
}

/// Puts behind the others that each hidden copy and the local of its parameter are in each other's region.
fn add_pairs(out: &mut Vec<Fact>, copies: u32) -> Result<(), NoMemory>
    requires { copies ≤ 128 }
    ensures { OnOk result ((fact : AnyFact) → is_listed out.new.items fact ≡ (is_listed out.old.items fact || some_pair (entry_pairs copies copies) fact)) }
{
    for copy in 0..copies {
        add_pair(out, copy, copies + copy)?;
    }
    Ok(())
}

/// What is known where a function begins: the facts of its entry, and that each hidden copy and the local
/// of its parameter are in each other's region.
///
/// # Errors
///
/// Out of memory.
pub fn begins(alloc: Global, site: &Site<'_>, proofs: &Proofs) -> Result<Vec<Fact>, NoMemory>
    requires site { IsSite site.now }
    requires claims { ProofsFit site.now.parts.now proofs.now }
    ensures { IfOk result (λ facts. (fact : AnyFact) → is_listed facts.items fact ≡ ((annotation_of site.now.parts.now proofs.now).entry site.now.number fact || some_pair (entry_pairs (copies (function_in site.now)) (copies (function_in site.now))) fact)) }
{
    let mut facts = Vec::new(alloc);
    let names = numbers_below(alloc, site.shape.copies)?;
    let known = known_of(proofs, site.number);
    add_claims(&mut facts, known.entry.as_slice(), names.as_slice())?;
    add_pairs(&mut facts, site.shape.copies)?;
    Ok(facts)
}
