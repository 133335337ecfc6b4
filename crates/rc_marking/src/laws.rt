// What marks are to the images of region code.
ghost use Rattle.std.specs.Prelude.{◌≡◌, Bool, List, false, get_or};
ghost use Rattle.rc_rlang.specs.RegionCode.{Rlang};
ghost use Rattle.rc_numbering.specs.Means.{IsNumberable};
ghost use Rattle.rc_numbering.specs.Numbered.{image_of};
ghost use Rattle.rc_marking.specs.Marking.{with_marks};
ghost use Rattle.rc_marks.specs.Marked.{marked_image};
ghost use Rattle.rc_marking.specs.Told.{ReportTellsOfImage};

/// The image of region code whose stores to annotated cells take bits one after another is the image
/// with marks whose mask has each of these bits at its number, and none behind them.
pub fn marks_of_images_are_numbered()
    ensures { (bits : List Bool) (r : Rlang) → IsNumberable r → with_marks bits (image_of r) ≡ marked_image (λ n. get_or bits n false) r }
{}

/// The report of region code tells of its image. Where exactly the stores have a mark whose checks may go,
/// the image has for each line and annotation as many stores with a mark as the report has lines that say
/// `removed`, and as many without one as lines that say `kept`.
pub fn reports_tell_of_images()
    ensures { (r : Rlang) → IsNumberable r → ReportTellsOfImage r }
{}
