ghost use Rattle.std.specs.Prelude.{ℕ, List};
ghost use Rattle.rc_base.specs.declared.ends.Limits.{Limits};
ghost use Rattle.rc_core.specs.Shapes.{program_of};
ghost use Rattle.rc_safety.specs.Safety.{NeverTouchesDeleted, LeavesSoundHeap};

use rc_core::program::Program;

/// This program never touches a deleted region, whatever its input and its limits, and where it
/// exits the heap that it leaves is sound.
pub fn never_touches_deleted(program: &Program)
    ensures never { (input : List ℕ) (limits : Limits) → NeverTouchesDeleted (program_of program.now) input limits }
    ensures left { (input : List ℕ) (limits : Limits) → LeavesSoundHeap (program_of program.now) input limits }
{
    let _parts = program.parts();
}
