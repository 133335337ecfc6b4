// Laws of loading.
ghost use Rattle.std.specs.Prelude.{◌≡◌, ◌⊎◌};
ghost use Rattle.rc_code.specs.declared.image.Parts.{Parts};
ghost use Rattle.rc_code.specs.Image.{FieldsFit};
ghost use Rattle.rc_code.specs.Soundness.{Sound, SoundUnmarked};
ghost use Rattle.rc_code.specs.Faithful.{Faithful};
ghost use Rattle.rc_loader.specs.declared.fault.Violation.{Violation};
ghost use Rattle.rc_loader.specs.Violations.{FirstViolation};
ghost use Rattle.rc_loader.specs.Unmarked.{unmarked};

/// An image is sound or has a first violation; it has one at most, and none where it is sound.
pub fn there_is_one_first_violation()
    ensures some { (parts : Parts) → Sound parts ⊎ ((violation : Violation) × FirstViolation parts violation) }
    ensures one { (parts : Parts) (v w : Violation) → FirstViolation parts v → FirstViolation parts w → v ≡ w }
    ensures none { (parts : Parts) (v : Violation) → Sound parts → FirstViolation parts v → ⊥ }
{}

/// With every mark taken away an image keeps the rules of its fields, and a sound one stays sound.
/// Whatever its marks were, none is wrong then.
pub fn an_image_without_marks_is_faithful()
    ensures fields { (parts : Parts) → FieldsFit parts → FieldsFit (unmarked parts) }
    ensures sound { (parts : Parts) → Sound parts → Sound (unmarked parts) }
    ensures bare { (parts : Parts) → Sound parts → SoundUnmarked (unmarked parts) }
    ensures faithful { (parts : Parts) → Faithful (unmarked parts) }
{}
