// The facts of all functions of region code: sets before each point, at each entry and at each exit.
// `specs/Inferred` says when they are those that are inferred, and `specs/Calls` what the calls and
// returns of region code fit.
ghost use Rattle.std.specs.Prelude.{◌≡◌, ◌↔◌, ℕ, slice_get, Some};
ghost use Rattle.rc_rlang.specs.RegionCode.{Routine, Rlang};
ghost use Rattle.rc_rlang.specs.IsRlang.{IsRlang};
ghost use Rattle.rc_annotations.specs.Heights.{temporaries_of};
ghost use Rattle.rc_annotations.specs.Annotations.{Annotation, Consistent, Proven, Removable};
ghost use Rattle.rc_annotations.specs.Laws.{Inside};
ghost use Rattle.rc_edges.specs.Inferred.{GreatestOf, InsideOf, only_of};
ghost use Rattle.rc_edges.specs.Calls.{CallsFit, ReturnsFit};

/// Where an annotation is the greatest consistent one of region code, the checks that may go are those
/// that it proves needless (`removable`), and another greatest one has the same facts of the code (`one`).
pub fn greatest_annotations_decide()
    ensures removable { (r : Rlang) (temporaries : ℕ → ℕ) (a : Annotation) → GreatestOf r temporaries a → (g p : ℕ) → Removable r temporaries g p ↔ Proven r a g p }
    ensures one { (r : Rlang) (temporaries : ℕ → ℕ) (a b : Annotation) → GreatestOf r temporaries a → GreatestOf r temporaries b → InsideOf r a b × InsideOf r b a }
{}

/// What a consistent annotation says of the code alone is consistent (`consistent`), and is inside of
/// another just where the annotation is, of the code (`inside`).
pub fn annotations_of_the_code_are_enough()
    ensures consistent { (r : Rlang) → IsRlang r → (b : Annotation) → Consistent r (temporaries_of r) b → Consistent r (temporaries_of r) (only_of r b) }
    ensures inside { (r : Rlang) (b a : Annotation) → InsideOf r b a ↔ Inside (only_of r b) a }
{}

/// In region code whose parts fit together calls fit the functions that they call, and returns give
/// temporaries.
pub fn calls_and_returns_fit()
    ensures calls { (r : Rlang) → IsRlang r → (g : ℕ) (f : Routine) → slice_get r.functions g ≡ Some f → CallsFit r f }
    ensures returns { (r : Rlang) → IsRlang r → (g : ℕ) (f : Routine) → slice_get r.functions g ≡ Some f → (temporaries : ℕ) → ReturnsFit f temporaries }
{}
