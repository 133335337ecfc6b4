//! No deleted region is ever touched: the law that makes regions safe.
#![tactic(auto)]

mod program;

ghost use Rattle.std.specs.Prelude.{ℕ, List};
ghost use Rattle.rc_base.specs.declared.ends.Limits.{Limits};
ghost use Rattle.rc_core.specs.Programs.{Program};
ghost use Rattle.rc_core.specs.Deletes.{DeletesInPlace};
ghost use Rattle.rc_safety.specs.Safety.{NeverTouchesDeleted, LeavesSoundHeap};

pub use program::never_touches_deleted;

/// No run of a program ever touches a deleted region. Whatever its input and its limits, it never
/// reads, writes or steps a pointer into one, never allocates or makes a subregion in one, never
/// deletes it again and never stores a value that names it: `deleteregion` succeeds only where no
/// other live region, no local that is still needed and no waiting caller refers to the region. And
/// where the program exits, no cell of a live region names a deleted one, and each annotated cell
/// keeps its annotation.
///
/// All that the program has to keep is that only a function with `deletes` deletes, or calls one
/// that does, and that such calls stand by themselves.
pub fn no_deleted_region_is_touched()
    ensures never { (program : Program) (input : List ℕ) (limits : Limits) → DeletesInPlace program → NeverTouchesDeleted program input limits }
    ensures left { (program : Program) (input : List ℕ) (limits : Limits) → DeletesInPlace program → LeavesSoundHeap program input limits }
{}
