// Images with their proofs as bytes.
ghost use Rattle.rc_claims.specs.Claims.{ProofsFit};

use rc_claims::Proofs;
use rc_code::Image;
use rc_image::{ImageFault, write};
use rc_sealed_images::{read_sealed, write_sealed};
use std::alloc::Global;

/// An image that writes `H` and leaves with 0, without proofs, in both versions.
const FIRST: &[u8] =
    b"RCIM\x01\x00\x00\x00\x01\x00\x00\x00\x05\x00\x48\x29\x2e\x00\x00\x28\x01\x01\x01\x01\x01\x00";

const SECOND: &[u8] =
    b"RCIM\x02\x00\x00\x00\x01\x00\x00\x00\x05\x00\x48\x29\x2e\x00\x00\x28\x01\x05\x01\x00\x00";

/// The same image with proofs, which claim nothing.
const SEALED: &[u8] =
    b"RCIM\x02\x00\x00\x00\x01\x00\x00\x00\x05\x00\x48\x29\x2e\x00\x00\x28\x01\x05\x01\x00\x01\x00";

/// A function of two instructions with a parameter that is a region: at its entry and at its exit all
/// facts on one variable are claimed, and before its second instruction all on two.
const CLAIMED: &[u8] =
    b"RCIM\x02\x00\x00\x00\x01\x01\x01\x03\x00\x02\x00\x00\x28\x01\x02\x01\x00\x01\x0f\x0f\x01\x01\xff\x0f";

/// A function of eight instructions with a local that is a region, and frames at the third and at the
/// sixth.
const FRAMED: &[u8] =
    b"RCIM\x02\x00\x00\x00\x01\x00\x01\x03\x00\x08\x21\x06\x00\x05\x00\x26\x00\x05\x00\x2e\x00\x00\x28\x01\x08\x01\x00\x01\x02\x02\x0f\x05\x03";

/// What may stand behind `main` of these, and why it is refused.
const BEHIND_SEALED: [(&[u8], ImageFault); 7] = [
    // No proofs are there.
    (b"\x01", ImageFault::Short),
    (b"", ImageFault::Short),
    (b"\x02", ImageFault::Field(24)),
    (b"\x80\x00", ImageFault::Field(24)),
    (b"\x01\x00\x00", ImageFault::Extra),
    // A frame at no instruction, and more than the bytes can have.
    (b"\x01\x01\x05", ImageFault::Field(26)),
    (b"\x01\xff\xff\xff\xff\x0f", ImageFault::Short),
];

const BEHIND_CLAIMED: [(&[u8], ImageFault); 5] = [
    // Unused bits at the entry, at the exit and in a frame.
    (b"\x01\x10\x00\x00", ImageFault::Field(22)),
    (b"\x01\x0f\x80\x00", ImageFault::Field(23)),
    (b"\x01\x0f\x0f\x01\x01\xff\x10", ImageFault::Field(27)),
    (b"\x01\x0f\x0f\x01\x01\xff", ImageFault::Short),
    (b"\x01\x0f\x0f\x01\x02\xff\x0f", ImageFault::Field(25)),
];

const BEHIND_FRAMED: [(&[u8], ImageFault); 6] = [
    // At no instruction, out of order, twice, and with an unused bit.
    (b"\x01\x02\x02\x0f\x08\x00", ImageFault::Field(35)),
    (b"\x01\x02\x05\x0f\x02\x00", ImageFault::Field(35)),
    (b"\x01\x02\x02\x0f\x02\x00", ImageFault::Field(35)),
    (b"\x01\x02\x02\x0f\x05\x1f", ImageFault::Field(36)),
    (b"\x01\x03\x02\x0f\x05\x03", ImageFault::Short),
    (b"\x01\x01\x02\x0f\x05\x03", ImageFault::Extra),
];

/// Why the bytes carry no image.
fn fault_of(alloc: Global, bytes: &[u8]) -> Option<ImageFault> {
    match read_sealed(alloc, bytes) {
        Ok(_) => None,
        Err(fault) => Some(fault),
    }
}

/// Whether the first bytes, of which there are so many, and what stands behind them are refused so.
fn are_refused(alloc: Global, bytes: &[u8], main: usize, rows: &[(&[u8], ImageFault)]) -> bool {
    let Some(front) = bytes.get(..main) else {
        return false;
    };
    for (behind, fault) in rows {
        let Ok(mut whole) = Vec::from_slice(alloc, front) else {
            return false;
        };
        if whole.extend_from_slice(behind).is_err() {
            return false;
        }
        if fault_of(alloc, &whole) != Some(*fault) {
            return false;
        }
    }
    true
}

/// Whether all that the bytes begin with, but they themselves, is too short.
fn fronts_are_short(alloc: Global, bytes: &[u8]) -> bool {
    for end in 0..bytes.len() {
        let Some(front) = bytes.get(..end) else {
            return false;
        };
        if fault_of(alloc, front) != Some(ImageFault::Short) {
            return false;
        }
    }
    true
}

/// Whether an image with these proofs has these bytes.
fn is_written(alloc: Global, image: &Image, proofs: &Proofs, bytes: &[u8]) -> bool
    requires { ProofsFit image.now proofs.now }
{
    match write_sealed(alloc, image, proofs) {
        Ok(again) => again.as_slice() == bytes,
        Err(_) => false,
    }
}

/// Whether an image without proofs has these bytes.
fn is_written_bare(alloc: Global, image: &Image, bytes: &[u8]) -> bool {
    match write(alloc, image) {
        Ok(again) => again.as_slice() == bytes,
        Err(_) => false,
    }
}

/// Whether the bytes carry an image with proofs, and these are written as the same bytes.
fn is_sealed(alloc: Global, bytes: &[u8]) -> bool {
    match read_sealed(alloc, bytes) {
        Ok(carried) => match &carried.1 {
            Some(proofs) => is_written(alloc, &carried.0, proofs, bytes),
            None => false,
        },
        Err(_) => false,
    }
}

/// Whether the bytes carry an image without proofs, which is written so.
fn is_bare(alloc: Global, bytes: &[u8], second: &[u8]) -> bool {
    match read_sealed(alloc, bytes) {
        Ok(carried) => match &carried.1 {
            Some(_) => false,
            None => is_written_bare(alloc, &carried.0, second),
        },
        Err(_) => false,
    }
}

/// Whether the first function has frames at these instructions, with these first bytes.
fn are_frames(proofs: &Proofs, wanted: &[(u32, u8)]) -> bool {
    let Some(known) = proofs.functions.as_slice().get(0) else {
        return false;
    };
    let frames = known.frames.as_slice();
    if frames.len() != wanted.len() {
        return false;
    }
    for (frame, (at, first)) in frames.iter().zip(wanted) {
        if frame.at != *at {
            return false;
        }
        if frame.facts.as_slice().get(0) != Some(first) {
            return false;
        }
    }
    true
}

/// Whether the bytes carry an image with these frames.
fn has_frames(alloc: Global, bytes: &[u8], wanted: &[(u32, u8)]) -> bool {
    match read_sealed(alloc, bytes) {
        Ok(carried) => match &carried.1 {
            Some(proofs) => are_frames(proofs, wanted),
            None => false,
        },
        Err(_) => false,
    }
}

#[test]
fn sealed_images_are_written_as_they_are_read(rt: HostRuntime) {
    assert!(rt; is_sealed(rt.alloc(), SEALED));
    assert!(rt; is_sealed(rt.alloc(), CLAIMED));
    assert!(rt; is_sealed(rt.alloc(), FRAMED));
    assert!(rt; is_bare(rt.alloc(), FIRST, SECOND));
    assert!(rt; is_bare(rt.alloc(), SECOND, SECOND));
}

#[test]
fn frames_are_read_in_their_order(rt: HostRuntime) {
    assert!(rt; has_frames(rt.alloc(), FRAMED, &[(2, 15), (5, 3)]));
    assert!(rt; has_frames(rt.alloc(), CLAIMED, &[(1, 255)]));
    assert!(rt; has_frames(rt.alloc(), SEALED, &[]));
}

#[test]
fn the_front_of_a_sealed_image_is_too_short(rt: HostRuntime) {
    assert!(rt; fronts_are_short(rt.alloc(), SEALED));
    assert!(rt; fronts_are_short(rt.alloc(), CLAIMED));
    assert!(rt; fronts_are_short(rt.alloc(), FRAMED));
}

#[test]
fn the_first_fault_of_proofs_is_answered(rt: HostRuntime) {
    assert!(rt; are_refused(rt.alloc(), SEALED, 24, &BEHIND_SEALED));
    assert!(rt; are_refused(rt.alloc(), CLAIMED, 21, &BEHIND_CLAIMED));
    assert!(rt; are_refused(rt.alloc(), FRAMED, 31, &BEHIND_FRAMED));
}
