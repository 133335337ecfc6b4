//! Annotations of region code with facts. `specs/Annotations` says when one is consistent, and which
//! checks it removes; `specs/Holding` what a fact says of values, `specs/Variables` which values a
//! function's variables have, `specs/Effects` what happens to them at a point, and `specs/Worlds` what
//! the operations of the source's world do to them. `specs/Heights` counts the
//! temporaries of functions.
#![tactic(auto)]

ghost use Rattle.std.specs.Prelude.{◌≡◌, ◌↔◌, ℕ, Bool, length};
ghost use Rattle.rc_rlang.specs.RegionCode.{Rlang, Routine};
ghost use Rattle.rc_rlang.specs.RegionFlow.{routine_nodes};
ghost use Rattle.rc_rlang.specs.RegionPoints.{routine_points};
ghost use Rattle.rc_annotations.specs.Annotations.{Annotation, Consistent, Follows, Proven, AllProven, Removable, AllRemovable};
ghost use Rattle.rc_annotations.specs.Laws.{DerivedHolds, HoldsLater, AskedFits, AllowedHolds, OperationsSay, Inside, Greatest, united, without_facts};

/// A function of region code has as many nodes as points.
pub fn points_are_nodes()
    ensures { (f : Routine) → length (routine_nodes f) ≡ routine_points f }
{}

/// The rules of facts are true of regions, where each but the first was made later than its parent.
/// What is derivable from facts that hold, holds (`derived`); what holds of values that were made still
/// holds when the heap has grown, whatever was deleted since (`later`); and the check of a store finds
/// that the value fits where the fact that it asks holds (`asked`).
pub fn facts_are_true_of_regions()
    ensures derived { DerivedHolds }
    ensures later { HoldsLater }
    ensures asked { AskedFits }
{}

/// What is allowed behind an effect holds behind it, where the facts before it held of values that were
/// made, the heap has grown at most, and the effect happens as it says: also where a variable is assigned
/// on which there were facts, and where the effect names its old value.
pub fn allowed_facts_hold()
    ensures { AllowedHolds }
{}

/// The operations of the source's world do what the effects of region code say of them, from a world
/// whose heap is in order, and leave such a one: steps of pointers, new regions and subregions, new
/// objects, loads, stores and deletions.
pub fn operations_do_what_effects_say()
    ensures { OperationsSay }
{}

/// Two consistent annotations have a consistent one that has all facts of both (`united`, `left`,
/// `right`). A search that goes downward from all facts, and takes away only what does not follow,
/// keeps each consistent annotation inside (`kept`). The annotation without facts is consistent
/// (`least`). Where there is a greatest consistent annotation, which every consistent one is inside of,
/// the checks that may go are those that it proves needless (`removable`), and another greatest one
/// has the same facts (`one`). Checks that may go are proven needless together, by one consistent
/// annotation (`together`).
pub fn consistent_annotations_unite()
    ensures united { (r : Rlang) (temporaries : ℕ → ℕ) (a b : Annotation) → Consistent r temporaries a → Consistent r temporaries b → Consistent r temporaries (united a b) }
    ensures left { (a b : Annotation) → Inside a (united a b) }
    ensures right { (a b : Annotation) → Inside b (united a b) }
    ensures kept { (r : Rlang) (temporaries : ℕ → ℕ) (b a : Annotation) → Consistent r temporaries b → Inside b a → Follows r temporaries b a }
    ensures least { (r : Rlang) (temporaries : ℕ → ℕ) → Consistent r temporaries without_facts }
    ensures removable { (r : Rlang) (temporaries : ℕ → ℕ) (a : Annotation) → Greatest r temporaries a → (g p : ℕ) → Removable r temporaries g p ↔ Proven r a g p }
    ensures together { (r : Rlang) (temporaries : ℕ → ℕ) (marks : (function point : ℕ) → Bool) → AllRemovable r temporaries marks → (a : Annotation) × Consistent r temporaries a × AllProven r a marks }
    ensures one { (r : Rlang) (temporaries : ℕ → ℕ) (a b : Annotation) → Greatest r temporaries a → Greatest r temporaries b → Inside a b × Inside b a }
{}
