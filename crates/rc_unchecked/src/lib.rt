//! Images without needless checks: what they mean.
#![tactic(auto)]

ghost use Rattle.rc_core.specs.Programs.{Program};
ghost use Rattle.rc_core.specs.WellTyped.{IsWellTyped};
ghost use Rattle.rc_numbering.specs.Numbered.{image_of};
ghost use Rattle.rc_rlang.specs.Bounds.{IsWithinBounds};
ghost use Rattle.rc_rlang.specs.IsRlang.{IsRlang};
ghost use Rattle.rc_rlang.specs.RegionCode.{Rlang};
ghost use Rattle.rc_numbering.specs.Small.{IsSmall};
ghost use Rattle.rc_numbering.specs.Programs.{image_of_program};
ghost use Rattle.rc_unchecked.specs.Compiled.{HasOneImage};
ghost use Rattle.rc_unchecked.specs.Regions.{MarkedImagesDoWhatTheirCodeDoes};
ghost use Rattle.rc_unchecked.specs.Right.{MarksAreRight};
ghost use Rattle.rc_unchecked.specs.Unchecked.{LeavesTheSameUnchecked, MeansTheSameUnchecked};

/// Without needless checks the image of a program means what the program means. A store whose check
/// may go has a mark, and makes no check; on every input of bytes and under all limits the image does
/// the same acts in the same order, takes as many bytes and has the same end, over a store that
/// counts. Where it exits it leaves the same heap. As of the image with all its checks it is asked
/// that the image's counts and lines are below 2 to the power 32.
pub fn images_without_needless_checks_mean_the_same()
    ensures means { (program : Program) → IsWellTyped program → IsWithinBounds program → IsSmall (image_of_program program) → MeansTheSameUnchecked program }
    ensures leaves { (program : Program) → IsWellTyped program → IsWithinBounds program → IsSmall (image_of_program program) → LeavesTheSameUnchecked program }
{}

/// In no run of such an image, on an input of bytes, would a check have failed that is left out: at
/// each marked store that the run comes to, after however many instructions, the store does the same
/// with its check and without.
pub fn checks_that_are_left_out_never_fail()
    ensures { (program : Program) → IsWellTyped program → IsWithinBounds program → IsSmall (image_of_program program) → MarksAreRight program }
{}

/// The image of region code with marks does what the code does, whether a program was translated to it
/// or not. Without a mark it means on every input and under all limits what the code means, a dead
/// region that is touched and its line included, and leaves the same (`bare`). With marks, which stand
/// at stores alone whose checks ask for a fact, so does each run in which no marked check fails
/// (`marked`). Where all runs on bytes are so, no run comes to a marked store that would have failed its
/// check (`faithful`).
pub fn marked_images_do_what_their_code_does()
    ensures { (r : Rlang) → IsRlang r → IsSmall (image_of r) → MarkedImagesDoWhatTheirCodeDoes r }
{}

/// A program that keeps within the bounds of region variables and points is compiled to one image: it
/// is decided of each store whether its check may go, and exactly such stores have a mark.
pub fn a_program_is_compiled_to_one_image()
    ensures { (program : Program) → IsWellTyped program → IsWithinBounds program → HasOneImage program }
{}
