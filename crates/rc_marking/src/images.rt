// Images with the marks of a mask.
ghost use Rattle.std.specs.Prelude.{◌≡◌, IfOk};
ghost use Rattle.rc_elim.specs.Masks.{marks_in};
ghost use Rattle.rc_marks.specs.Marked.{marked_image};
ghost use Rattle.rc_numbering.specs.Numbered.{image_of};
ghost use Rattle.rc_rlang.specs.Shapes.{rlang_of};
ghost use Rattle.rc_marks.specs.InOrder.{mask_of};

use crate::marking::mark;
use crate::marks::marks_of;
use rc_base::NoMemory;
use rc_code::Image;
use rc_elim::Mask;
use rc_rlang::rlang::Rlang;
use std::alloc::Global;

/// The image of region code with the marks of a mask: a store makes no check just where its point is
/// marked. The image is that without marks, as rc_emit's `emit` gives it.
///
/// # Errors
///
/// Out of memory.
pub fn marked(alloc: Global, code: &Rlang, mask: &Mask, image: Image) -> Result<Image, NoMemory>
    requires image { image ≡ image_of (rlang_of code.now) }
    ensures { IfOk result (λ marked. marked ≡ marked_image (mask_of (marks_in mask.now) (rlang_of code.now)) (rlang_of code.now)) }
{
    let _parts = code.parts();
    let bits = marks_of(alloc, code, mask)?;
    Ok(mark(alloc, image, bits.as_slice()))
}
