// What holds of typing whatever the tree.

ghost use Rattle.std.specs.Prelude.{◌≡◌, ◌↔◌, ◌≤◌, ℕ, List, Some, length, map};
ghost use Rattle.rc_syntax.specs.declared.tree.Spot.{Spot};
ghost use Rattle.rc_syntax.specs.Shape as written;
ghost use Rattle.std.specs.List.{AllByRecursion as Every};
ghost use Rattle.rc_core.specs.Numbers.{IsByte};
ghost use Rattle.rc_core.specs.Programs.{Program};
ghost use Rattle.rc_deletes.specs.declared.fault.Refusal.{Refusal};
ghost use Rattle.rc_deletes.specs.Items.{Typed, Violation, builtins, judged};
ghost use Rattle.rc_deletes.specs.Answer.{IsProgramOf};
ghost use Rattle.rc_deletes.specs.Builtins.{row};
ghost use Rattle.rc_deletes.specs.Scopes.{Meaning, a_builtin, meaning_in};
ghost use Rattle.rc_deletes.specs.declared.builtin.Builtin.{Builtin};
ghost use Rattle.rc_deletes.specs.Limits.{AreShort, IsLimited};
ghost use Rattle.rc_deletes.specs.Ranges.{ItemsInRange};
ghost use Rattle.rc_base.specs.Limits.{most_program_words};
ghost use Rattle.rc_syntax.specs.Grammar.{Derives, Placed, node, placed, Text};
ghost use Rattle.rc_syntax.specs.Tokens.{Token};
ghost use Rattle.rc_deletes.specs.Judged.{first_fault};
ghost use Rattle.rc_deletes.specs.First.{first};
ghost use Rattle.rc_deletes.specs.Places.{deletes_faults};
ghost use Rattle.rc_deletes.specs.PlacedFaults.{PlacedFault, placed_faults, without_place};
ghost use Rattle.rc_deletes.specs.Order.{IsLeast, IsLeastPlaced};
ghost use Rattle.rc_deletes.specs.declared.deletes.DeletesFault.{DeletesFault};
ghost use Rattle.rc_deletes.specs.declared.fault.Fault.{Fault};
ghost use Rattle.rc_core.specs.WellTyped.{IsWellTyped};

use rc_syntax::tree::Tree;

/// Before its first item a text knows each built-in function by its name, and nothing else. No two
/// of them have one name.
#[tactic(auto, using(crate::proofs::BuiltinNames::known, crate::proofs::BuiltinNames::one_name))]
pub fn builtins_are_known_by_name()
    ensures known { (b : Builtin) → meaning_in builtins (row b).name ≡ Some (a_builtin b) }
    ensures nothing_else { (name : List ℕ) (meaning : Meaning) → meaning_in builtins name ≡ Some meaning → (b : Builtin) × ((row b).name ≡ name) × (meaning ≡ a_builtin b) }
    ensures one_name { (a b : Builtin) → (row a).name ≡ (row b).name → a ≡ b }
{}

/// A tree has at most one program.
#[tactic(auto, using(crate::proofs::Typings::one))]
pub fn has_one_program(_tree: &Tree)
    ensures { (a : Program) (b : Program) → Typed (written.tree_of _tree.now) a → Typed (written.tree_of _tree.now) b → a ≡ b }
{}

/// A tree has a program exactly where no rule on names, types, arities and sizes fails in it.
#[tactic(auto, using(crate::proofs::Typings::typed_or_faulty))]
pub fn has_program_or_violation(_tree: &Tree)
    ensures { ((a : Program) × Typed (written.tree_of _tree.now) a) ↔ ((at : Spot) (refusal : Refusal) → ¬ Violation (written.tree_of _tree.now) at refusal) }
{}

/// The program of a tree that nothing refuses fits together, where the tree's numbers are those of
/// words, it keeps the limits (each of its structs has a field, and its strings are few and short
/// enough), and its strings are of bytes.
pub fn fits_together(_tree: &Tree)
    ensures { (program : Program) → ItemsInRange (written.tree_of _tree.now).items → IsLimited (written.tree_of _tree.now) → Every (Every IsByte) program.strings → IsProgramOf (written.tree_of _tree.now) program → IsWellTyped program }
{}

/// The tree of a text keeps the limits, where its words are at most 16,777,216 and each string literal
/// among them has at most 1,048,576 bytes.
#[tactic(auto, using(crate::proofs::Filled::keeps_limits))]
pub fn keeps_limits(_tree: &Tree)
    ensures { (words : List Placed) → Derives words (node Text (written.tree_of _tree.now).items) → length words ≤ most_program_words → AreShort words → IsLimited (written.tree_of _tree.now) }
{}

/// In the tree of a text the first violation that a walk of the rules meets is the least of all: no
/// other one stands at an earlier word, and at its node none has a refusal with a smaller number.
pub fn first_violation_is_least(_tree: &Tree)
    ensures { (tokens : List Token) (first : Fault) → Derives (placed 0 tokens) (node Text (written.tree_of _tree.now).items) → first_fault (judged (written.tree_of _tree.now)) ≡ Some first → IsLeast (written.tree_of _tree.now) first }
{}

/// What is refused of a program's annotations and deletions is what its tree shows, in the same
/// order; the tree shows the places too.
pub fn shows_misplaced(_tree: &Tree)
    ensures { (program : Program) → Typed (written.tree_of _tree.now) program → deletes_faults (written.tree_of _tree.now) program ≡ map without_place (placed_faults (written.tree_of _tree.now)) }
{}

/// In the tree of a text the first annotation or deletion that is refused is the least of all: no
/// other one stands at an earlier word, and at its node none has a refusal with a smaller number.
pub fn first_misplaced_is_least(_tree: &Tree)
    ensures { (tokens : List Token) (fault : PlacedFault) → Derives (placed 0 tokens) (node Text (written.tree_of _tree.now).items) → first (placed_faults (written.tree_of _tree.now)) ≡ Some fault → IsLeastPlaced (written.tree_of _tree.now) fault }
{}

/// What `check_deletes` answers of the tree of a text, beside its program, is the least of all that
/// is refused of the annotations and deletions in it.
pub fn first_answer_is_least(_tree: &Tree)
    ensures { (tokens : List Token) (program : Program) (fault : DeletesFault) → Derives (placed 0 tokens) (node Text (written.tree_of _tree.now).items) → Typed (written.tree_of _tree.now) program → first (deletes_faults (written.tree_of _tree.now) program) ≡ Some fault → (least : PlacedFault) × (without_place least ≡ fault) × IsLeastPlaced (written.tree_of _tree.now) least }
{}
