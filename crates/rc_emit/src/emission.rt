// Images of region code.
ghost use Rattle.std.specs.Prelude.{◌≡◌, IfOk, map};
ghost use Rattle.rc_code.specs.Soundness.{Sound};
ghost use Rattle.rc_elim.specs.Masks.{marks_in};
ghost use Rattle.rc_numbering.specs.Small.{IsSmall};
ghost use Rattle.rc_marks.specs.InOrder.{mask_of};
ghost use Rattle.rc_marks.specs.Marked.{image_stores, marked_image};
ghost use Rattle.rc_marks.specs.Counted.{all_sites, stored};
ghost use Rattle.rc_numbering.specs.Numbered.{image_of};
ghost use Rattle.rc_rlang.specs.LiveLists.{live_lists};
ghost use Rattle.rc_rlang.specs.Shapes.{rlang_of};
ghost use Rattle.rc_unchecked.specs.Regions.{DoesWhatItsCodeDoes};

use crate::making::image;
use rc_base::NoMemory;
use rc_code::Image;
use rc_elim::Mask;
use rc_marking::marked;
use rc_program_code::program_code;
use rc_rlang::live_map::LiveMap;
use rc_rlang::rlang::Rlang;
use std::alloc::Global;

/// The image of region code, where `live` has the lists of what is live at its deleting points, as
/// rc_live's `live` gives them. It may be run. Its stores to annotated cells are the sites of the code,
/// in the same order, and a store has a mark, and makes no check, just where the mask marks its point.
///
/// It does what the code does. Without a mark it means what the code means, on every input and under all
/// limits, a dead region that is touched and its line included. With marks, which stand at stores alone
/// whose checks ask for a fact, so does each run in which no marked check fails, and where all runs on
/// bytes are so, no run comes to a marked store that would have failed its check.
///
/// # Errors
///
/// Out of memory. So it answers too where a count, a line or a place doesn't fit 32 bits.
pub fn emit(alloc: Global, code: &Rlang, live: &LiveMap, mask: &Mask) -> Result<Image, NoMemory>
    requires live { live.now ≡ live_lists (rlang_of code.now) }
    ensures image { IfOk result (λ image. image ≡ marked_image (mask_of (marks_in mask.now) (rlang_of code.now)) (rlang_of code.now)) }
    ensures small { IfOk result (λ image. IsSmall (image_of (rlang_of code.now))) }
    ensures sound { IfOk result (λ image. Sound image) }
    ensures stores { IfOk result (λ image. image_stores image ≡ map (stored (marks_in mask.now)) (all_sites (rlang_of code.now))) }
    ensures does { IfOk result (DoesWhatItsCodeDoes (rlang_of code.now) (marks_in mask.now)) }
{
    let _parts = code.parts();
    let functions = program_code(alloc, code, live)?;
    let bare = image(alloc, code, functions)?;
    marked(alloc, code, mask, bare)
}
