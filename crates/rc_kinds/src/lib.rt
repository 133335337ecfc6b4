//! Values keep their types: the law that makes typing sound.
#![tactic(auto)]

mod program;

ghost use Rattle.std.specs.Prelude.{ℕ, List};
ghost use Rattle.std.specs.List.{AllByRecursion as Every};
ghost use Rattle.rc_base.specs.declared.ends.Limits.{Limits};
ghost use Rattle.rc_core.specs.Numbers.{IsByte};
ghost use Rattle.rc_core.specs.Programs.{Program};
ghost use Rattle.rc_core.specs.WellTyped.{IsWellTyped};
ghost use Rattle.rc_kinds.specs.Kinds.{KeepsToTypes, ValuesSay};
ghost use Rattle.rc_kinds.specs.Parts.{Part, Comes, MeetsTypes};
ghost use Rattle.rc_kinds.specs.Demands.{IsAnswered};
ghost use Rattle.rc_kinds.specs.Copies.{CopiesGoByCells};

pub use program::keeps_its_types;

/// In every run of a program, on an input of bytes and under any limits, each value is of its type:
/// that of an expression, a local, an argument, a result and a cell. A number is in its type's range.
/// A region is null or one that was made. A pointer is null, or leads to an object that was made
/// with the pointer's element type, to one of its elements or to its end. An object has as many
/// cells as its type says. The struct, field, function, global, string and local that is named is
/// there.
///
/// So the answers that the meaning gives where a value is of the wrong kind, or what is named isn't
/// there, are never given: trap null comes of null alone, and no write is lost.
///
/// `kept` says it of each expression, place, statement and call that has a type and is run with
/// locals and a world of their types, `said` what follows for a value, and `everywhere` that each
/// expression, place, statement and call that the run comes to is one of those. `answered` says that
/// what the run calculates with is always a number, what it goes through a pointer or null, and what
/// it allocates in or deletes a region or null.
pub fn values_keep_their_types()
    ensures kept { (program : Program) → IsWellTyped program → KeepsToTypes program }
    ensures said { (program : Program) → ValuesSay program }
    ensures everywhere { (program : Program) → IsWellTyped program → (input : List ℕ) (limits : Limits) → Every IsByte input → (part : Part) → Comes program input limits part → MeetsTypes program part }
    ensures answered { (program : Program) → IsWellTyped program → (input : List ℕ) (limits : Limits) → Every IsByte input → (part : Part) → Comes program input limits part → IsAnswered program part }
{}

/// Two places of one type, as both sides of a struct copy, are the same place or share no cell. So a
/// copy that reads and writes one cell after another leaves what one leaves that reads all cells
/// first, and ends where it ends, with the same acts.
pub fn struct_copies_go_by_cells()
    ensures { (program : Program) → IsWellTyped program → CopiesGoByCells program }
{}
