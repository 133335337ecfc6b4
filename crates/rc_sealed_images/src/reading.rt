// Reading an image, with its proofs where it carries some.
ghost use Rattle.std.specs.Prelude.{◌≡◌, length, Option, IfOk, Ok};
ghost use Rattle.std.specs.List.{AllByRecursion as Every};
ghost use Rattle.rc_code.specs.declared.image.Parts.{Parts};
ghost use Rattle.rc_claims.specs.declared.proofs.Proofs.{Proofs as AnyProofs};
ghost use Rattle.rc_fields.specs.Reading.{Gives};
ghost use Rattle.rc_image.specs.Reading.{Answers, fields_at};
ghost use Rattle.rc_sealed_images.specs.Counted.{IsCounted};
ghost use Rattle.rc_sealed_images.specs.Reading.{carried_at, image_at, carried_of};
ghost use Rattle.rc_sealed_images.specs.Carrying.{Carries};

use crate::claims::read_claims;
use rc_claims::Proofs;
use rc_code::{Function, Image};
use rc_fields::{Stop, read_within};
use rc_image::{ImageFault, Version, fault_of, read_fields, read_start};
use std::alloc::Global;

/// Reads an image, up to its `main`.
fn read_image(alloc: Global, version: Version, bytes: &[u8]) -> Result<(Image, &[u8]), Stop>
    ensures { Gives (λ x. (x.0, x.1.now)) result (fields_at version bytes.now) }
{
    let (parts, rest) = read_fields(alloc, version, bytes)?;
    Ok((Image::new(parts), rest))
}

/// Reads how many proofs there are, none or one, and what it claims.
#[tactic(auto, unfolding(crate::specs::Reading::carried_at))]
fn read_carried<'b>(
    alloc: Global,
    version: Version,
    functions: &[Function],
    bytes: &'b [u8],
) -> Result<(Option<Proofs>, &'b [u8]), Stop>
    requires { Every IsCounted functions.now }
    ensures { Gives (λ x. (x.0, x.1.now)) result (carried_at version functions.now bytes.now) }
{
    match version {
        Version::One => Ok((None, bytes)),
        Version::Two => {
            let (count, rest) = read_within(0, 2, bytes)?;
            if count == 0 {
                return Ok((None, rest));
            }
            let (proofs, rest) = read_claims(alloc, functions, rest)?;
            Ok((Some(proofs), rest))
        }
    }
}

/// Reads an image and its proofs.
#[tactic(auto, unfolding(crate::specs::Reading::image_at))]
fn read_carrying(alloc: Global, bytes: &[u8]) -> Result<((Image, Option<Proofs>), &[u8]), Stop>
    ensures { Gives (λ x. (x.0, x.1.now)) result (image_at bytes.now) }
{
    let (version, rest) = read_start(bytes)?;
    let (image, rest) = read_image(alloc, version, rest)?;
    let functions = image.parts().functions.as_slice();
    let (proofs, rest) = read_carried(alloc, version, functions, rest)?;
    Ok(((image, proofs), rest))
}

/// Reads an image of which these are all bytes, and its proofs.
#[tactic(auto, unfolding(crate::specs::Reading::carried_of))]
fn read_all(alloc: Global, bytes: &[u8]) -> Result<(Image, Option<Proofs>), Stop>
    ensures { Gives (λ x. x) result (carried_of bytes.now) }
{
    let (carried, rest) = read_carrying(alloc, bytes)?;
    if !rest.is_empty() {
        return Err(Stop::Extra);
    }
    Ok(carried)
}

/// The image that the bytes carry, all of them, in either version, and its proofs, where it carries some.
///
/// # Errors
///
/// The first fault from left to right, or `Memory`. It takes memory for what was read alone: a count
/// that the bytes can't fill takes none.
pub fn read_sealed(alloc: Global, bytes: &[u8]) -> Result<(Image, Option<Proofs>), ImageFault>
    // What is read is carried.
    ensures found { IfOk result (λ read. Carries bytes.now read.0 read.1) }
    // What is carried is read, unless memory runs out.
    ensures only { (parts : Parts) (proofs : Option AnyProofs) → Carries bytes.now parts proofs → Answers (length bytes.now) result (Ok (parts, proofs)) }
    // Which fault it is.
    ensures exact { Answers (length bytes.now) result (carried_of bytes.now) }
{
    match read_all(alloc, bytes) {
        Ok(read) => Ok(read),
        Err(stop) => Err(fault_of(stop, bytes.len())),
    }
}
