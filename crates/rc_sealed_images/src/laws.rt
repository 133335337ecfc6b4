// Laws of the bytes of images that may carry proofs.
ghost use Rattle.std.specs.Prelude.{◌≡◌, ◌++◌, ℕ, List, [], Option};
ghost use Rattle.rc_code.specs.declared.image.Parts.{Parts};
ghost use Rattle.rc_claims.specs.declared.proofs.Proofs.{Proofs};
ghost use Rattle.rc_sealed_images.specs.Carrying.{Carries};

/// The bytes that carry an image, in either version and with proofs or without, begin no others that
/// carry one: where they are the first bytes of these, both carry one image and the same proofs, and
/// nothing follows. So an image has no bytes in common with another, nor with itself under other proofs.
pub fn no_sealed_image_begins_another()
    ensures parts { (front whole rest : List ℕ) (p q : Parts) (c d : Option Proofs) → Carries front p c → Carries whole q d → front ++ rest ≡ whole → p ≡ q }
    ensures proofs { (front whole rest : List ℕ) (p q : Parts) (c d : Option Proofs) → Carries front p c → Carries whole q d → front ++ rest ≡ whole → c ≡ d }
    ensures whole { (front whole rest : List ℕ) (p q : Parts) (c d : Option Proofs) → Carries front p c → Carries whole q d → front ++ rest ≡ whole → rest ≡ [] }
{}
