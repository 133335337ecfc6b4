// An image is sealed with its greatest proofs.
ghost use Rattle.std.specs.Prelude.{IfErr, IfOk};
ghost use Rattle.rc_code.specs.Soundness.{Sound};
ghost use Rattle.rc_greatest_proofs.specs.Sealed.{IsPinFault, IsSealedAs};
ghost use Rattle.rc_seal.specs.Finding.{MayBeSealed};

use crate::finding::find;
use crate::marking::marked;
use crate::pinned::fault_of;
use rc_base::NoMemory;
use rc_claims::Proofs;
use rc_code::Image;
use rc_sealed::ProofFault;
use std::alloc::Global;

/// Seals an image that may be sealed.
fn seal(alloc: Global, image: Image) -> Result<(Image, Proofs), NoMemory>
    requires sound { Sound image }
    requires free { MayBeSealed image }
    ensures { IfOk result (λ sealed. IsSealedAs image sealed.0 sealed.1) }
{
    let found = find(alloc, image.parts())?;
    let sealed = marked(alloc, image, found.marks.as_slice());
    Ok((sealed, found.proofs))
}

/// The image with its greatest proofs, and with a mark at each store whose check they prove. It is marked
/// in place, and given up where it isn't sealed.
///
/// # Errors
///
/// `Wide` with the first function that has more variables than a set of facts, or `Pins` with the first
/// instruction that doesn't pin all that is used behind it, or `Memory`.
pub fn prove(alloc: Global, image: Image) -> Result<(Image, Proofs), ProofFault>
    requires { Sound image }
    ensures proved { IfOk result (λ sealed. IsSealedAs image sealed.0 sealed.1) }
    ensures refused { IfErr result (λ fault. IsPinFault image fault) }
{
    if let Some(fault) = fault_of(alloc, image.parts())? {
        return Err(fault);
    }
    Ok(seal(alloc, image)?)
}
