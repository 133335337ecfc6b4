// The facts that an image claims of a function, as lists.
ghost use Rattle.std.specs.Prelude.{◌≡◌, ◌<◌, ◌≤◌, ◌⊎◌, ◌↔◌, ◌++◌, ◌∷◌, [], ◌||◌, ℕ, true, false, length, map, get_or, IsTrue, IfOk, OnOk, MatchOption};
ghost use Rattle.rc_facts.specs.declared.fact.Fact.{Fact as AnyFact};
ghost use Rattle.rc_claims.specs.Claims.{known_at, ProofsFit};
ghost use Rattle.rc_claims.specs.Counts.{regional_result};
ghost use Rattle.rc_sealed.specs.Carrying.{is_target};
ghost use Rattle.rc_sealed.specs.Claimed.{annotation_of};
ghost use Rattle.rc_image_claims.specs.Naming.{is_listed};
ghost use Rattle.rc_image_steps.specs.Sites.{function_in, image_of, IsSite};
ghost use Rattle.rc_image_steps.specs.Listing.{number_if, AreExitNames, ExitAsked, FrameAsked};

use crate::site::{Site, is_target};
use rc_base::NoMemory;
use rc_claims::{Known, Proofs};
use rc_code::Function;
use rc_facts::Fact;
use rc_image_claims::{add_claims, frame_at, numbers_below};
use rc_image_counts::{function_of, is_regional};
use std::alloc::Global;

/// What is claimed of the function of that number.
pub(crate) fn known_of(proofs: &Proofs, number: u32) -> &Known
    requires { number < length proofs.now.functions }
    ensures { result.now ≡ known_at proofs.now number }
{
    &proofs.functions.as_slice()[number as usize]
}

/// Puts the facts of an instruction's frame, if it has one, behind the others.
fn add_frame(
    alloc: Global,
    out: &mut Vec<Fact>,
    site: &Site<'_>,
    proofs: &Proofs,
    at: u32,
) -> Result<(), NoMemory>
    requires site { IsSite site.now }
    requires claims { ProofsFit site.now.parts.now proofs.now }
    ensures { OnOk result ((fact : AnyFact) → IsTrue (is_listed out.new.items fact) ↔ (IsTrue (is_listed out.old.items fact) ⊎ IsTrue ((annotation_of site.now.parts.now proofs.now).before site.now.number at fact))) }
{
    let known = known_of(proofs, site.number);
    match frame_at(known.frames.as_slice(), at) {
        None => Ok(()),
        Some(frame) => {
            let names = numbers_below(alloc, site.shape.first)?;
            add_claims(out, frame.facts.as_slice(), names.as_slice())?;
            Ok(())
        }
    }
}

/// Puts the facts of an instruction's frame behind the others, if so, and if it is a target.
pub(crate) fn add_target(
    alloc: Global,
    out: &mut Vec<Fact>,
    site: &Site<'_>,
    proofs: &Proofs,
    so: bool,
    at: u32,
) -> Result<(), NoMemory>
    requires site { IsSite site.now }
    requires claims { ProofsFit site.now.parts.now proofs.now }
    ensures { OnOk result ((fact : AnyFact) → IsTrue (is_listed out.new.items fact) ↔ (IsTrue (is_listed out.old.items fact) ⊎ FrameAsked site.now proofs.now so at fact)) }
{
    if !so {
        return Ok(());
    }
    if !is_target(site.shape, at) {
        return Ok(());
    }
    add_frame(alloc, out, site, proofs, at)?;
    Ok(())
}

/// The facts that are given before an instruction, where it is a target.
///
/// # Errors
///
/// Out of memory.
pub fn frame_of(
    alloc: Global,
    site: &Site<'_>,
    proofs: &Proofs,
    at: u32,
) -> Result<Option<Vec<Fact>>, NoMemory>
    requires site { IsSite site.now }
    requires claims { ProofsFit site.now.parts.now proofs.now }
    ensures { IfOk result (λ frame. MatchOption frame (is_target (function_in site.now) at ≡ false) (λ facts. (is_target (function_in site.now) at ≡ true) × ((fact : AnyFact) → is_listed facts.items fact ≡ (annotation_of site.now.parts.now proofs.now).before site.now.number at fact))) }
{
    if !is_target(site.shape, at) {
        return Ok(None);
    }
    let mut facts = Vec::new(alloc);
    add_frame(alloc, &mut facts, site, proofs, at)?;
    Ok(Some(facts))
}

/// Whether a function has a result that is a region or a pointer.
fn regional_result(function: &Function) -> bool
    ensures { result ≡ regional_result function.now.result }
{
    match function.result {
        None => false,
        Some(storage) => is_regional(storage),
    }
}

/// Puts a number behind the others, if so.
fn put_if(out: &mut Vec<u32>, so: bool, number: u32) -> Result<(), NoMemory>
    ensures { OnOk result (out.new.items ≡ out.old.items ++ number_if so number) }
{
    if so {
        out.push(number)?;
    }
    Ok(())
}

/// The names that the variables of a function's exit have in it.
fn exit_names(alloc: Global, site: &Site<'_>) -> Result<Vec<u32>, NoMemory>
    requires { IsSite site.now }
    ensures { IfOk result (λ names. AreExitNames (image_of site.now) (function_in site.now) names.items) }
{
    let mut names = numbers_below(alloc, site.shape.copies)?;
    let function = function_of(site.parts, site.number);
    put_if(&mut names, regional_result(function), site.shape.result)?;
    Ok(names)
}

/// Puts the facts of the exit of a function behind the others, if so, with the variable of its result.
pub(crate) fn add_exit(
    alloc: Global,
    out: &mut Vec<Fact>,
    site: &Site<'_>,
    proofs: &Proofs,
    so: bool,
) -> Result<(), NoMemory>
    requires site { IsSite site.now }
    requires claims { ProofsFit site.now.parts.now proofs.now }
    ensures { OnOk result ((fact : AnyFact) → IsTrue (is_listed out.new.items fact) ↔ (IsTrue (is_listed out.old.items fact) ⊎ ExitAsked site.now proofs.now so fact)) }
{
    if !so {
        return Ok(());
    }
    let names = exit_names(alloc, site)?;
    let known = known_of(proofs, site.number);
    add_claims(out, known.exit.as_slice(), names.as_slice())?;
    Ok(())
}
