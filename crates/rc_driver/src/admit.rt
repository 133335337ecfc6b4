// What is run of a file's image.
ghost use Rattle.std.specs.Prelude.{◌≡◌, Some};
ghost use Rattle.rc_claims.specs.Claims.{ProofsFit};
ghost use Rattle.rc_code.specs.Soundness.{Sound};
ghost use Rattle.rc_driver.specs.Admitting.{Admitted, IsSoundOr, unproven, unsound};
ghost use Rattle.rc_files.specs.Loading.{Fit, as_read};
ghost use Rattle.rc_outcomes.specs.Images.{alone, carrying};
ghost use Rattle.rc_outcomes.specs.Outcome.{refusal_of_code};

use rc_answers::ImageRefusal;
use rc_claims::Proofs;
use rc_code::{Image, Loaded};
use rc_files::Carried;
use rc_loader::{LoadFault, Rule, Violation, load, sound};
use rc_sealed::ProofFault;
use rc_verify::verify;
use std::alloc::Global;

/// Why an image isn't run, or isn't sealed.
#[derive(Clone, Copy)]
pub(crate) enum NotRun {
    /// It is refused.
    Refused(ImageRefusal),
    /// Out of memory.
    Memory,
}

/// The refusal of an image that breaks a rule first there.
fn refusal_of(violation: Violation) -> ImageRefusal
    ensures { result ≡ refusal_of_code violation }
{
    let function = violation.function;
    let instruction = violation.instruction;
    match violation.rule {
        Rule::Number => ImageRefusal::Number(function, instruction),
        Rule::Target => ImageRefusal::Target(function, instruction),
        Rule::Height => ImageRefusal::Height(function, instruction),
        Rule::Kind => ImageRefusal::Kind(function, instruction),
    }
}

/// Why an image whose code breaks a rule isn't run.
pub(crate) fn unsound(fault: LoadFault) -> NotRun
    ensures { result ≡ unsound fault }
{
    match fault {
        LoadFault::Broken(violation) => NotRun::Refused(refusal_of(violation)),
        LoadFault::Memory => NotRun::Memory,
    }
}

/// Why an image that its proofs don't prove isn't run.
pub(crate) fn unproven(fault: ProofFault) -> NotRun
    ensures { result ≡ unproven fault }
{
    match fault {
        ProofFault::Facts(function, instruction) => {
            NotRun::Refused(ImageRefusal::Facts(function, instruction))
        }
        ProofFault::Pins(function, instruction) => {
            NotRun::Refused(ImageRefusal::Pins(function, instruction))
        }
        ProofFault::Wide(function) => NotRun::Refused(ImageRefusal::Wide(function)),
        ProofFault::Memory => NotRun::Memory,
    }
}

/// Looks at the rules of code.
///
/// # Errors
///
/// The first violation, as it is refused, or out of memory.
pub(crate) fn sound_code(alloc: Global, image: &Image) -> Result<(), NotRun>
    ensures { IsSoundOr image.now result }
{
    match sound(alloc, image) {
        Ok(()) => Ok(()),
        Err(fault) => Err(unsound(fault)),
    }
}

/// Loads an image that has no proofs. The marks that it has are not trusted.
fn admit_bare(alloc: Global, image: Image) -> Result<Loaded, NotRun>
    ensures { Admitted (alone image) result }
{
    match load(alloc, image) {
        Ok(code) => Ok(code),
        Err(fault) => Err(unsound(fault)),
    }
}

/// Loads an image whose code keeps the rules as it is, where these proofs prove it.
fn admit_proven(alloc: Global, image: Image, proofs: &Proofs) -> Result<Loaded, NotRun>
    requires sound { Sound image }
    requires fit { ProofsFit image proofs.now }
    ensures { Admitted (carrying image (Some proofs.now)) result }
{
    match verify(alloc, image, proofs) {
        Ok(code) => Ok(code),
        Err(fault) => Err(unproven(fault)),
    }
}

/// Loads an image as it is, where its code keeps the rules and these proofs prove it.
fn admit_sealed(alloc: Global, image: Image, proofs: &Proofs) -> Result<Loaded, NotRun>
    requires { ProofsFit image proofs.now }
    ensures { Admitted (carrying image (Some proofs.now)) result }
{
    match sound_code(alloc, &image) {
        Ok(()) => admit_proven(alloc, image, proofs),
        Err(reason) => Err(reason),
    }
}

/// What is run of what a file carries: the image without its marks where no proofs stand beside it, and
/// the image as it is where they do and prove it.
///
/// # Errors
///
/// Why it is refused, or out of memory.
pub(crate) fn admit(alloc: Global, carried: Carried) -> Result<Loaded, NotRun>
    requires { Fit carried }
    ensures { Admitted (as_read carried) result }
{
    let Carried { image, proofs } = carried;
    match proofs {
        None => admit_bare(alloc, image),
        Some(proofs) => admit_sealed(alloc, image, &proofs),
    }
}
