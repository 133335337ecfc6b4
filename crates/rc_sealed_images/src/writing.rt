// Writing an image with its proofs.
ghost use Rattle.std.specs.Prelude.{◌≡◌, IfOk};
ghost use Rattle.rc_claims.specs.Claims.{ProofsFit};
ghost use Rattle.rc_sealed_images.specs.Spelling.{sealing};

use crate::claims::write_claims;
use rc_base::NoMemory;
use rc_claims::Proofs;
use rc_code::Image;
use rc_fields::write_number;
use rc_image::{Version, write_fields, write_start};
use std::alloc::{AllocError, Global};

fn write_all(alloc: Global, image: &Image, proofs: &Proofs) -> Result<Vec<u8>, AllocError>
    ensures { IfOk result (λ v. v.items ≡ sealing image.now proofs.now) }
{
    let mut out = Vec::new(alloc);
    write_start(&mut out, Version::Two)?;
    write_fields(alloc, &mut out, Version::Two, image.parts())?;
    write_number(&mut out, 1)?;
    write_claims(&mut out, proofs)?;
    Ok(out)
}

/// The bytes of an image with its proofs, which must fit it.
///
/// # Errors
///
/// `NoMemory` where there is none.
pub fn write_sealed(alloc: Global, image: &Image, proofs: &Proofs) -> Result<Vec<u8>, NoMemory>
    requires { ProofsFit image.now proofs.now }
    ensures { IfOk result (λ v. v.items ≡ sealing image.now proofs.now) }
{
    match write_all(alloc, image, proofs) {
        Ok(bytes) => Ok(bytes),
        Err(_) => Err(NoMemory),
    }
}
