// The image of region code.
ghost use Rattle.std.specs.Prelude.{◌≡◌, IfOk};
ghost use Rattle.rc_lines.specs.ProgramCode.{IsProgramCode};
ghost use Rattle.rc_numbering.specs.Small.{IsSmall};
ghost use Rattle.rc_numbering.specs.Numbered.{image_of};
ghost use Rattle.rc_rlang.specs.Shapes.{rlang_of};

use crate::parts::image_parts;
use rc_base::NoMemory;
use rc_code::Image;
use rc_core::ty::Ty;
use rc_lines::FunctionCode;
use rc_rlang::rlang::Rlang;
use rc_tables::struct_types;
use std::alloc::Global;

/// The image of region code, from the stack code of its functions: with a number in place of each
/// type, path and string, and with no mark at any store. It takes one walk to gather what is named, and
/// one to number it.
///
/// # Errors
///
/// Out of memory. So it answers too where a count, a line or a place doesn't fit 32 bits.
pub fn image(
    alloc: Global,
    code: &Rlang,
    functions: Vec<FunctionCode<'_>>,
) -> Result<Image, NoMemory>
    requires functions { IsProgramCode (rlang_of code.now) functions.items }
    ensures image { IfOk result (λ image. image ≡ image_of (rlang_of code.now)) }
    ensures small { IfOk result (λ image. IsSmall image) }
{
    let parts = code.parts();
    let structs = struct_types(alloc, parts.structs.as_slice())?;
    let element = Ty::Char;
    let parts = image_parts(
        alloc,
        parts,
        structs.as_slice(),
        &element,
        functions.as_slice(),
    )?;
    Ok(Image::new(parts))
}
