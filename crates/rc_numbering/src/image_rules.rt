// The image of region code keeps the rules of images: those of its fields, and those of its code.
ghost use Rattle.rc_rlang.specs.IsRlang.{IsRlang};
ghost use Rattle.rc_rlang.specs.RegionCode.{Rlang};
ghost use Rattle.rc_code.specs.Faithful.{Faithful};
ghost use Rattle.rc_code.specs.Image.{FieldsFit};
ghost use Rattle.rc_code.specs.Soundness.{Sound, SoundUnmarked};
ghost use Rattle.rc_numbering.specs.Means.{IsNumberable};
ghost use Rattle.rc_numbering.specs.Numbered.{image_of};
ghost use Rattle.rc_numbering.specs.Small.{IsSmall};

/// The image of region code may be run: no operand is missing or of another kind, each name is of
/// something that is there, jumps lead to instructions before which the stack is empty, and no store
/// has a mark.
pub fn images_keep_the_rules_of_code()
    ensures unmarked { (r : Rlang) → IsNumberable r → SoundUnmarked (image_of r) }
    ensures sound { (r : Rlang) → IsNumberable r → Sound (image_of r) }
    ensures faithful { (r : Rlang) → IsNumberable r → Faithful (image_of r) }
{}

/// The fields of the image of region code whose parts fit together keep their rules, where its
/// counts and lines are below 2 to the power 32.
pub fn images_keep_the_rules_of_fields()
    ensures { (r : Rlang) → IsRlang r → IsNumberable r → IsSmall (image_of r) → FieldsFit (image_of r) }
{}
