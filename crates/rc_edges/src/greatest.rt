// Region code has a greatest consistent annotation with facts, so it is decided which checks may go.
ghost use Rattle.std.specs.Prelude.{◌≡◌, ◌↔◌, ℕ, Bool, true};
ghost use Rattle.rc_rlang.specs.RegionCode.{Rlang};
ghost use Rattle.rc_rlang.specs.IsRlang.{IsRlang};
ghost use Rattle.rc_annotations.specs.Annotations.{Annotation, Removable};
ghost use Rattle.rc_annotations.specs.Heights.{temporaries_of};
ghost use Rattle.rc_edges.specs.Inferred.{GreatestOf};

/// Region code whose parts fit together has a consistent annotation that has what each consistent one
/// has of it (`greatest`). So of each point it is decided whether the check of its store may go
/// (`decided`).
pub fn region_code_has_a_greatest_annotation()
    ensures greatest { (r : Rlang) → IsRlang r → (a : Annotation) × GreatestOf r (temporaries_of r) a }
    ensures decided { (r : Rlang) → IsRlang r → (marks : (function point : ℕ) → Bool) × ((g p : ℕ) → marks g p ≡ true ↔ Removable r (temporaries_of r) g p) }
{}
