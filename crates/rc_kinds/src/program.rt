ghost use Rattle.std.specs.Prelude.{ℕ, List};
ghost use Rattle.std.specs.List.{AllByRecursion as Every};
ghost use Rattle.rc_base.specs.declared.ends.Limits.{Limits};
ghost use Rattle.rc_core.specs.Numbers.{IsByte};
ghost use Rattle.rc_core.specs.Shapes.{program_of};
ghost use Rattle.rc_kinds.specs.Kinds.{KeepsToTypes};
ghost use Rattle.rc_kinds.specs.Parts.{Part, Comes, MeetsTypes};
ghost use Rattle.rc_kinds.specs.Demands.{IsAnswered};

use rc_core::program::Program;

/// In every run of this program, on an input of bytes and under any limits, each value is of its
/// type, and each part that the run comes to is run with locals and a world of their types, and with
/// values of the kinds that it demands.
pub fn keeps_its_types(program: &Program)
    ensures kept { KeepsToTypes (program_of program.now) }
    ensures everywhere { (input : List ℕ) (limits : Limits) → Every IsByte input → (part : Part) → Comes (program_of program.now) input limits part → MeetsTypes (program_of program.now) part }
    ensures answered { (input : List ℕ) (limits : Limits) → Every IsByte input → (part : Part) → Comes (program_of program.now) input limits part → IsAnswered (program_of program.now) part }
{
    let _parts = program.parts();
}
