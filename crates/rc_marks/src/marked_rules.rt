// An image with marks at its annotated stores keeps the rules of images, as it does without them.
ghost use Rattle.std.specs.Prelude.{◌≡◌, ℕ, Bool};
ghost use Rattle.rc_rlang.specs.RegionCode.{Rlang};
ghost use Rattle.rc_rlang.specs.IsRlang.{IsRlang};
ghost use Rattle.rc_code.specs.Image.{FieldsFit};
ghost use Rattle.rc_code.specs.Soundness.{Sound};
ghost use Rattle.rc_numbering.specs.Numbered.{image_of};
ghost use Rattle.rc_numbering.specs.Means.{IsNumberable};
ghost use Rattle.rc_numbering.specs.Small.{IsSmall};
ghost use Rattle.rc_loader.specs.Unmarked.{unmarked};
ghost use Rattle.rc_marks.specs.Marked.{marked_image};

/// The image of region code with marks at stores to annotated cells keeps the rules of code and of
/// fields that the image without marks keeps, whichever stores are marked: a mark stands at no other
/// cell. With every mark taken away it is the image without marks.
pub fn marked_images_keep_the_rules()
    ensures code { (mask : ℕ → Bool) (r : Rlang) → IsNumberable r → Sound (marked_image mask r) }
    ensures fields { (mask : ℕ → Bool) (r : Rlang) → IsRlang r → IsNumberable r → IsSmall (image_of r) → FieldsFit (marked_image mask r) }
    ensures unmarked { (mask : ℕ → Bool) (r : Rlang) → unmarked (marked_image mask r) ≡ image_of r }
{}
