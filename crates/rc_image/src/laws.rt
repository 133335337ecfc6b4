// Laws of the bytes of images.
ghost use Rattle.std.specs.Prelude.{◌≡◌, ◌++◌, ℕ, List, []};
ghost use Rattle.rc_code.specs.declared.image.Parts.{Parts};
ghost use Rattle.rc_code.specs.Image.{FieldsFit};
ghost use Rattle.rc_image.specs.declared.version.Version.{Version};
ghost use Rattle.rc_image.specs.Spelling.{spelling};

/// The bytes of no image begin those of another, in either version: where the bytes of one are the
/// first bytes of another, both are one image in one version. So no two images share their bytes.
pub fn no_image_begins_another()
    ensures version { (v w : Version) (p q : Parts) (rest : List ℕ) → FieldsFit p → FieldsFit q → spelling v p ++ rest ≡ spelling w q → v ≡ w }
    ensures parts { (v w : Version) (p q : Parts) (rest : List ℕ) → FieldsFit p → FieldsFit q → spelling v p ++ rest ≡ spelling w q → p ≡ q }
    ensures whole { (v w : Version) (p q : Parts) (rest : List ℕ) → FieldsFit p → FieldsFit q → spelling v p ++ rest ≡ spelling w q → rest ≡ [] }
{}
