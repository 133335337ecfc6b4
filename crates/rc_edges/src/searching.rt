// A search for the greatest consistent facts of region code (`specs/Searching`): its steps, where it
// begins and where it ends.
ghost use Rattle.std.specs.Prelude.{◌≡◌, ℕ, slice_get, Some};
ghost use Rattle.rc_rlang.specs.RegionCode.{Routine, Rlang};
ghost use Rattle.rc_rlang.specs.IsRlang.{IsRlang};
ghost use Rattle.rc_annotations.specs.Heights.{temporaries_of};
ghost use Rattle.rc_edges.specs.Families.{Family, Settled, annotation_in};
ghost use Rattle.rc_edges.specs.Inferred.{GreatestOf};
ghost use Rattle.rc_edges.specs.Searching.{Full, Searching};

/// A search begins with all facts (`begins`), and has come to the greatest consistent ones where none is
/// dropped (`ends`).
pub fn searches_come_to_the_greatest()
    ensures begins { (r : Rlang) → IsRlang r → (m : Family) → Full r m → Searching r m }
    ensures ends { (r : Rlang) → IsRlang r → (m : Family) → Searching r m → ((g : ℕ) (f : Routine) → slice_get r.functions g ≡ Some f → Settled r (temporaries_of r) (annotation_in m) g f) → GreatestOf r (temporaries_of r) (annotation_in m) }
{}
