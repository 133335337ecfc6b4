// The facts of the exits of functions.
ghost use Rattle.std.specs.Prelude.{◌≡◌, ◌<◌, ◌≤◌, ◌++◌, ◌∷◌, [], IfOk, OnOk, length};
ghost use Rattle.rc_facts.specs.Facts.{Known as AnySet};
ghost use Rattle.rc_code.specs.Image.{FieldsFit};
ghost use Rattle.rc_code.specs.Running.{function_at, reading_of};
ghost use Rattle.rc_code.specs.Soundness.{Sound};
ghost use Rattle.rc_claims.specs.Claims.{known_at, ProofsFit};
ghost use Rattle.rc_claims.specs.Counts.{exit_count, one_if, regional_result};
ghost use Rattle.rc_sealed.specs.Faults.{IsWide, NoneIsWide};
ghost use Rattle.rc_verify.specs.Passes.{AreClaimed, AreFirstExits, IsExit};

use crate::numbers::{functions_in, number_of};
use rc_base::NoMemory;
use rc_claims::{Known, Proofs};
use rc_code::{Parts, Storage};
use rc_crossing::fill;
use rc_facts::FactSet;
use rc_image_claims::{add_claims, numbers_below};
use rc_image_counts::{function_of, is_regional};
use rc_image_shapes::copies_in;
use std::alloc::Global;

/// 1 for a result that is a region or a pointer, and else 0.
fn regional(result_kind: Option<Storage>) -> u32
    ensures { result ≡ one_if (regional_result result_kind) }
{
    match result_kind {
        None => 0,
        Some(storage) => { if is_regional(storage) { 1 } else { 0 } }
    }
}

/// How many variables the facts of a function's exit speak of.
fn count_of(parts: &Parts, number: u32) -> u32
    requires fields { FieldsFit parts.now }
    requires sound { Sound parts.now }
    requires there { number < length parts.now.functions }
    requires narrow { IsWide parts.now number → ⊥ }
    ensures count { result ≡ exit_count (function_at (reading_of parts.now) number) }
    ensures few { result ≤ 128 }
{
    copies_in(parts, number) + regional(function_of(parts, number).result)
}

/// What is claimed of the function of that number.
fn known_of(proofs: &Proofs, number: u32) -> &Known
    requires { number < length proofs.now.functions }
    ensures { result.now ≡ known_at proofs.now number }
{
    &proofs.functions.as_slice()[number as usize]
}

/// The facts of a function's exit.
fn exit_of(alloc: Global, parts: &Parts, proofs: &Proofs, number: u32) -> Result<FactSet, NoMemory>
    requires fields { FieldsFit parts.now }
    requires sound { Sound parts.now }
    requires claims { ProofsFit parts.now proofs.now }
    requires there { number < length parts.now.functions }
    requires narrow { IsWide parts.now number → ⊥ }
    ensures { IfOk result (λ set. IsExit (function_at (reading_of parts.now) number) (known_at proofs.now number) set) }
{
    let count = count_of(parts, number);
    let names = numbers_below(alloc, count)?;
    let mut facts = Vec::new(alloc);
    add_claims(
        &mut facts,
        known_of(proofs, number).exit.as_slice(),
        names.as_slice(),
    )?;
    let mut set = FactSet::empty(alloc, count)?;
    fill(&mut set, facts.as_slice());
    Ok(set)
}

fn put(out: &mut Vec<FactSet>, set: FactSet) -> Result<(), NoMemory>
    ensures { OnOk result (out.new.items ≡ out.old.items ++ set ∷ []) }
{
    out.push(set)?;
    Ok(())
}

/// The facts of the exits of all functions.
///
/// # Errors
///
/// Out of memory.
pub fn exits_of(alloc: Global, parts: &Parts, proofs: &Proofs) -> Result<Vec<FactSet>, NoMemory>
    requires fields { FieldsFit parts.now }
    requires sound { Sound parts.now }
    requires claims { ProofsFit parts.now proofs.now }
    requires narrow { NoneIsWide parts.now }
    ensures { IfOk result (λ exits. AreClaimed parts.now proofs.now exits.items) }
{
    let mut exits = Vec::new(alloc);
    for at in 0..functions_in(parts) {
        let number = number_of(at)?;
        let exit = exit_of(alloc, parts, proofs, number)?;
        put(&mut exits, exit)?;
    }
    Ok(exits)
}
