// Small images with proofs that claim nothing, which are verified.
ghost use Rattle.rc_claims.specs.Claims.{ProofsFit};

use rc_claims::Proofs;
use rc_code::Image;
use rc_loader::sound;
use rc_sealed::ProofFault;
use rc_sealed_images::read_sealed;
use rc_verify::verify;
use std::alloc::Global;

/// It makes an object, and stores to its cell for the same region a pointer to itself, without a check.
const TO_ITSELF: &[u8] =
    b"RCIM\x02\x01\x01\x05\x00\x00\x01\x00\x00\x00\x00\x01\x00\x01\x04\x00\x00\x0a\x21\x24\x00\x06\x00\x05\x00\x05\x00\x20\x00\x01\x00\x00\x28\x00\x00\x28\x01\x0a\x02\x00\x01\x00";

/// It stores there a pointer to an object of another region, without a check.
const TO_ANOTHER: &[u8] =
    b"RCIM\x02\x01\x01\x05\x00\x00\x01\x00\x00\x00\x00\x01\x00\x02\x04\x00\x04\x00\x00\x0d\x21\x24\x00\x06\x00\x21\x24\x00\x06\x01\x05\x00\x05\x01\x20\x00\x01\x00\x00\x28\x00\x00\x28\x01\x0d\x02\x00\x01\x00";

/// It deletes a region, pins nothing, and gets the local that named it.
const DANGLING: &[u8] =
    b"RCIM\x02\x00\x00\x00\x01\x00\x01\x03\x00\x08\x21\x06\x00\x05\x00\x26\x00\x05\x00\x2e\x00\x00\x28\x01\x08\x01\x00\x01\x00";

/// The same, where it pins that local.
const PINNED: &[u8] =
    b"RCIM\x02\x00\x00\x00\x01\x00\x01\x03\x00\x08\x21\x06\x00\x05\x00\x26\x01\x00\x05\x00\x2e\x00\x00\x28\x01\x08\x01\x00\x01\x00";

/// It makes an object of a region and one of a region below, and stores a `parentptr` to the first in the
/// second, without a check.
const UPWARD: &[u8] =
    b"RCIM\x02\x01\x01\x06\x00\x00\x01\x00\x00\x00\x00\x01\x00\x03\x03\x04\x00\x04\x00\x00\x0e\x21\x06\x00\x05\x00\x24\x00\x06\x01\x05\x00\x22\x24\x00\x06\x02\x05\x02\x05\x01\x20\x00\x01\x00\x00\x28\x01\x0e\x01\x00\x01\x00";

/// It stores one to the second in the first.
const DOWNWARD: &[u8] =
    b"RCIM\x02\x01\x01\x06\x00\x00\x01\x00\x00\x00\x00\x01\x00\x03\x03\x04\x00\x04\x00\x00\x0e\x21\x06\x00\x05\x00\x24\x00\x06\x01\x05\x00\x22\x24\x00\x06\x02\x05\x01\x05\x02\x20\x00\x01\x00\x00\x28\x01\x0e\x01\x00\x01\x00";

/// It makes an object of a region, and stores in it a `traditional` pointer to a global, without a check.
const TO_A_GLOBAL: &[u8] =
    b"RCIM\x02\x01\x01\x07\x00\x01\x00\x01\x00\x01\x00\x00\x00\x00\x01\x00\x01\x04\x00\x00\x08\x21\x24\x00\x06\x00\x05\x00\x04\x00\x20\x00\x01\x00\x00\x28\x01\x08\x01\x00\x01\x00";

/// It stores one to the object.
const TO_NO_GLOBAL: &[u8] =
    b"RCIM\x02\x01\x01\x07\x00\x01\x00\x01\x00\x01\x00\x00\x00\x00\x01\x00\x01\x04\x00\x00\x08\x21\x24\x00\x06\x00\x05\x00\x05\x00\x20\x00\x01\x00\x00\x28\x01\x08\x01\x00\x01\x00";

/// Whether a sound image with these proofs is loaded, or this is told of it.
fn is_told(alloc: Global, image: Image, proofs: &Proofs, wanted: Option<ProofFault>) -> bool
    requires { ProofsFit image proofs.now }
{
    if sound(alloc, &image).is_err() {
        return false;
    }
    match verify(alloc, image, proofs) {
        Ok(_) => wanted.is_none(),
        Err(fault) => wanted == Some(fault),
    }
}

/// Whether the image that these bytes carry with proofs is loaded, or this is told of it.
pub(crate) fn tells(alloc: Global, bytes: &[u8], wanted: Option<ProofFault>) -> bool {
    match read_sealed(alloc, bytes) {
        Err(_) => false,
        Ok((image, carried)) => match carried {
            None => false,
            Some(proofs) => is_told(alloc, image, &proofs, wanted),
        },
    }
}

#[test]
fn proofs_that_claim_nothing_are_verified(rt: HostRuntime) {
    assert!(rt; tells(rt.alloc(), TO_ITSELF, None));
    assert!(rt; tells(rt.alloc(), TO_ANOTHER, Some(ProofFault::Facts(0, 8))));
    assert!(rt; tells(rt.alloc(), DANGLING, Some(ProofFault::Pins(0, 3))));
    assert!(rt; tells(rt.alloc(), PINNED, None));
}

#[test]
fn annotations_are_told_apart(rt: HostRuntime) {
    assert!(rt; tells(rt.alloc(), UPWARD, None));
    assert!(rt; tells(rt.alloc(), DOWNWARD, Some(ProofFault::Facts(0, 11))));
    assert!(rt; tells(rt.alloc(), TO_A_GLOBAL, None));
    assert!(rt; tells(rt.alloc(), TO_NO_GLOBAL, Some(ProofFault::Facts(0, 5))));
}
