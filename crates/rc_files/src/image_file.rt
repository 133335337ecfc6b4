// Images in files.
ghost use Rattle.std.specs.Prelude.{ℕ, Option, Result, Err, IfOk};
ghost use Rattle.rc_claims.specs.declared.proofs.Proofs.{Proofs as ProofsRead};
ghost use Rattle.rc_code.specs.declared.image.Parts.{Parts};
ghost use Rattle.rc_files.specs.Loading.{Fit, LoadedImage, MaySay, ReadPiece};
ghost use Rattle.rc_outcomes.specs.Images.{read_as};
ghost use Rattle.rc_fields.specs.Reading.{Fault as ReadingFault};
ghost use Rattle.rc_image.specs.Reading.{Refuses};

use rc_answers::{Fault, ImageRefusal};
use rc_base::{MOST_IMAGE_BYTES, Piece, Shelf, ShelfFault};
use rc_claims::Proofs;
use rc_code::Image;
use rc_image::ImageFault;
use rc_sealed_images::read_sealed;
use std::alloc::Global;

/// What a file carries: an image, and its proofs, where it has some.
#[derive(Drop)]
pub struct Carried {
    pub image: Image,
    pub proofs: Option<Proofs>,
}

/// Why there is no image.
#[derive(Clone, Copy)]
pub enum NoImage {
    /// The bytes are of none.
    Refused(ImageRefusal),
    /// The file is not there, could not be loaded, or there was no memory.
    Failed(Fault),
}

fn no_image(fault: ImageFault) -> NoImage
    ensures { (total : ℕ) (read : Result (Parts × Option ProofsRead) ReadingFault) → Refuses total fault read → MaySay (Err result) (read_as total read) }
{
    match fault {
        ImageFault::Magic => NoImage::Refused(ImageRefusal::Magic),
        ImageFault::Version => NoImage::Refused(ImageRefusal::Version),
        ImageFault::Short => NoImage::Refused(ImageRefusal::Short),
        ImageFault::Extra => NoImage::Refused(ImageRefusal::Extra),
        ImageFault::Field(offset) => NoImage::Refused(ImageRefusal::Field(offset)),
        ImageFault::Memory => NoImage::Failed(Fault::Memory),
    }
}

/// What was loaded carries, if that is all of the file. What is longer than an image may be goes on
/// behind it.
fn image_in_piece(alloc: Global, piece: &Piece) -> Result<Carried, NoImage>
    ensures read { ReadPiece piece.now result }
    ensures fit { IfOk result Fit }
{
    if !piece.whole {
        return Err(NoImage::Refused(ImageRefusal::Extra));
    }
    match read_sealed(alloc, piece.bytes.as_slice()) {
        Ok((image, proofs)) => Ok(Carried { image, proofs }),
        Err(fault) => Err(no_image(fault)),
    }
}

/// Loads the image of a file, and the proofs that stand beside it. The rules of its code are not looked
/// at, nor what the proofs prove.
///
/// # Errors
///
/// Why the bytes are of no image, or why they could not be loaded.
pub fn load_image<F: Shelf>(alloc: Global, name: &str, files: &mut F) -> Result<Carried, NoImage>
    ensures loaded { LoadedImage name.now (F.state files.old) (F.state files.new) result }
    ensures fit { IfOk result Fit }
{
    match files.load(alloc, name, MOST_IMAGE_BYTES) {
        Ok(piece) => image_in_piece(alloc, &piece),
        Err(ShelfFault::Memory) => Err(NoImage::Failed(Fault::Memory)),
        Err(ShelfFault::Absent) => Err(NoImage::Failed(Fault::FileFault)),
        Err(ShelfFault::Failed) => Err(NoImage::Failed(Fault::FileFault)),
    }
}
