// Marks of stores: which of an image's stores make no check.
ghost use Rattle.std.specs.Prelude.{◌≡◌, ℕ, Bool, false};
ghost use Rattle.rc_rlang.specs.RegionCode.{Rlang};
ghost use Rattle.rc_numbering.specs.Means.{IsNumberable};
ghost use Rattle.rc_marks.specs.Stores.{WritesItsStores};
ghost use Rattle.rc_marks.specs.Marked.{marked_image, HasItsMarks};
ghost use Rattle.rc_numbering.specs.Numbered.{image_of};

/// The stores to annotated cells that stack code has are those of the region code that it is made
/// for, with their lines and annotations, in the same order.
pub fn stores_are_those_of_the_code()
    ensures { (r : Rlang) → WritesItsStores r }
{}

/// The stores to annotated cells that an image with marks has are those of the region code, in the
/// same order, each with its line, its annotation and the bit that the mask has for it. So for each
/// line, annotation and bit there are as many of the one as of the other. Where the mask has no bit,
/// the image is that without marks.
pub fn marks_are_those_of_the_mask()
    ensures all { (mask : ℕ → Bool) (r : Rlang) → IsNumberable r → HasItsMarks mask r }
    ensures unmarked { (r : Rlang) → marked_image (λ n. false) r ≡ image_of r }
{}
