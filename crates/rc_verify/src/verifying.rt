// Proofs of an image are verified, and it is loaded.
ghost use Rattle.std.specs.Prelude.{◌≡◌, ◌<◌, ℕ, length, IfErr, IfOk, MatchOption};
ghost use Rattle.rc_code.specs.Image.{FieldsFit};
ghost use Rattle.rc_code.specs.Soundness.{Sound};
ghost use Rattle.rc_claims.specs.Claims.{ProofsFit};
ghost use Rattle.rc_sealed.specs.AllProved.{AllProved};
ghost use Rattle.rc_sealed.specs.Claimed.{annotation_of};
ghost use Rattle.rc_sealed.specs.Faults.{IsProofFault, NoneIsWide};
ghost use Rattle.rc_verify.specs.Firsts.{AllRight, FaultIn};
ghost use Rattle.rc_verify.specs.Passes.{proofs_of, AreChecks};

use crate::exits::exits_of;
use crate::faults::earlier;
use crate::numbers::{functions_in, number_of};
use crate::passing::first_unproved;
use rc_base::NoMemory;
use rc_claims::Proofs;
use rc_code::{Image, Loaded, Parts};
use rc_deleters::{Deleters, deleters_of};
use rc_facts::FactSet;
use rc_image_shapes::{first_wide, shape_of};
use rc_image_steps::Site;
use rc_pinning::first_unpinned;
use rc_sealed::ProofFault;
use std::alloc::Global;

/// What the functions of an image are checked by.
#[derive(Clone, Copy)]
pub(crate) struct Checks<'a> {
    pub(crate) alloc: Global,
    pub(crate) parts: &'a Parts,
    pub(crate) proofs: &'a Proofs,
    /// The facts of the exits of all functions.
    pub(crate) exits: &'a [FactSet],
    /// Which functions may delete.
    pub(crate) deleters: &'a Deleters,
}

/// What is told of a function.
fn fault_in(checks: &Checks<'_>, number: u32) -> Result<Option<ProofFault>, NoMemory>
    requires checks { AreChecks checks.now }
    requires there { number < length checks.now.parts.now.functions }
    ensures { IfOk result (λ found. MatchOption found (AllRight checks.now.parts.now (proofs_of checks.now) number) (FaultIn checks.now.parts.now (proofs_of checks.now) number)) }
{
    let shape = shape_of(checks.alloc, checks.parts, number)?;
    let site = Site {
        parts: checks.parts,
        number,
        shape: &shape,
    };
    let unproved = first_unproved(checks.alloc, &site, checks.proofs, checks.exits)?;
    let unpinned = first_unpinned(checks.alloc, checks.parts, number, checks.deleters)?;
    Ok(earlier(number, unproved, unpinned))
}

/// What is told of the first function of which something is.
fn first_fault(checks: &Checks<'_>) -> Result<Option<ProofFault>, NoMemory>
    requires { AreChecks checks.now }
    ensures { IfOk result (λ found. MatchOption found ((g : ℕ) → g < length checks.now.parts.now.functions → AllRight checks.now.parts.now (proofs_of checks.now) g) (λ fault. IsProofFault checks.now.parts.now (proofs_of checks.now) fault)) }
{
    for at in 0..functions_in(checks.parts) {
        let number = number_of(at)?;
        if let Some(fault) = fault_in(checks, number)? {
            return Ok(Some(fault));
        }
    }
    Ok(None)
}

/// What is told of an image of which no function is wide.
fn narrow_fault(
    alloc: Global,
    parts: &Parts,
    proofs: &Proofs,
) -> Result<Option<ProofFault>, NoMemory>
    requires fields { FieldsFit parts.now }
    requires sound { Sound parts.now }
    requires claims { ProofsFit parts.now proofs.now }
    requires narrow { NoneIsWide parts.now }
    ensures { IfOk result (λ found. MatchOption found ((g : ℕ) → g < length parts.now.functions → AllRight parts.now (annotation_of parts.now proofs.now) g) (λ fault. IsProofFault parts.now (annotation_of parts.now proofs.now) fault)) }
{
    let exits = exits_of(alloc, parts, proofs)?;
    let deleters = deleters_of(alloc, parts)?;
    let checks = Checks {
        alloc,
        parts,
        proofs,
        exits: exits.as_slice(),
        deleters: &deleters,
    };
    first_fault(&checks)
}

/// What is told of an image and its proofs, if they aren't right.
fn fault_of(alloc: Global, parts: &Parts, proofs: &Proofs) -> Result<Option<ProofFault>, NoMemory>
    requires fields { FieldsFit parts.now }
    requires sound { Sound parts.now }
    requires claims { ProofsFit parts.now proofs.now }
    ensures { IfOk result (λ found. MatchOption found (AllProved parts.now (annotation_of parts.now proofs.now) × NoneIsWide parts.now) (λ fault. IsProofFault parts.now (annotation_of parts.now proofs.now) fault)) }
{
    if let Some(number) = first_wide(parts) {
        return Ok(Some(ProofFault::Wide(number)));
    }
    narrow_fault(alloc, parts, proofs)
}

/// Loads an image with its marks, if its proofs prove every instruction and its calls and deletions pin
/// what is used behind them.
///
/// # Errors
///
/// What isn't right of them, first of all, or `Memory`.
pub fn verify(alloc: Global, image: Image, proofs: &Proofs) -> Result<Loaded, ProofFault>
    requires sound { Sound image }
    requires format { ProofsFit image proofs.now }
    ensures accepted { IfOk result (λ loaded. (loaded ≡ image) × (AllProved image (annotation_of image proofs.now) × NoneIsWide image)) }
    ensures refused { IfErr result (λ fault. IsProofFault image (annotation_of image proofs.now) fault) }
{
    match fault_of(alloc, image.parts(), proofs)? {
        Some(fault) => Err(fault),
        None => Ok(Loaded::new(image)),
    }
}
