// From programs to images, joined: an image means what the program means that it is made of.
ghost use Rattle.rc_core.specs.Programs.{Program};
ghost use Rattle.rc_core.specs.WellTyped.{IsWellTyped};
ghost use Rattle.rc_rlang.specs.Bounds.{IsWithinBounds};
ghost use Rattle.rc_numbering.specs.Small.{IsSmall};
ghost use Rattle.rc_numbering.specs.ImageExamples.{Examples};
ghost use Rattle.rc_rlang.specs.IsRlang.{IsRlang};
ghost use Rattle.rc_rlang.specs.RegionCode.{Rlang};
ghost use Rattle.rc_numbering.specs.Numbered.{image_of};
ghost use Rattle.rc_numbering.specs.Regions.{RegionMeansTheSame, RegionLeavesTheSame};
ghost use Rattle.rc_numbering.specs.Programs.{image_of_program, ImageMeansTheSame, ImageLeavesTheSame};

/// The image of a program whose parts fit together, and which keeps within the bounds of region
/// variables and points, means what the program means, on every input of bytes and under all limits:
/// the same acts in the same order, as many bytes taken, and the same end. Where it exits it leaves
/// the same heap. It is asked that the image's counts and lines are below 2 to the power 32.
pub fn images_mean_what_programs_mean()
    ensures means { (program : Program) → IsWellTyped program → IsWithinBounds program → IsSmall (image_of_program program) → ImageMeansTheSame program }
    ensures leaves { (program : Program) → IsWellTyped program → IsWithinBounds program → IsSmall (image_of_program program) → ImageLeavesTheSame program }
{}

/// The image of region code whose parts fit together means what the region code means, whether a
/// program was translated to it or not, on every input and under all limits, a dead region that is
/// touched and its line included; where it exits it leaves the same heap. It is asked that the image's
/// counts and lines are below 2 to the power 32.
pub fn images_mean_what_region_code_means()
    ensures means { (r : Rlang) → IsRlang r → IsSmall (image_of r) → RegionMeansTheSame r }
    ensures leaves { (r : Rlang) → IsRlang r → IsSmall (image_of r) → RegionLeavesTheSame r }
{}

/// Twenty runs of whole programs, as images, have the ends, and write the bytes, that they should;
/// the definitions are run for it.
pub fn image_examples_compute()
    ensures { Examples }
{}
