// Images for region code: the stack code that it becomes, with a number for each type and each
// path. `specs/Numbered` says what the image is.
ghost use Rattle.rc_core.specs.Programs.{Program};
ghost use Rattle.rc_core.specs.Source.{World, source};
ghost use Rattle.rc_core.specs.WellTyped.{IsWellTyped};
ghost use Rattle.std.specs.Prelude.{List};
ghost use Rattle.rc_core.specs.Heap.{Value};
ghost use Rattle.rc_rlang.specs.IsRlang.{IsRlang};
ghost use Rattle.rc_rlang.specs.RegionCode.{Rlang};
ghost use Rattle.rc_translation.specs.Translation.{region_of_program};
ghost use Rattle.rc_code.specs.Running.{Doing};
ghost use Rattle.rc_numbering.specs.Waits.{Waiting};
ghost use Rattle.rc_numbering.specs.Means.{IsNumberable, IsPlain, ImageMeansTheSame, ViewMeansTheSame, ViewLeavesTheSame};

/// The image of region code does what its stack code does, in every world in which calls give back
/// what waits, whatever the world's operations are: it is the same run.
pub fn images_mean_what_stack_code_means<W, V>()
    ensures { (does : Doing W) (waiting : W → V) (r : Rlang) → IsPlain does → Waiting does.ops waiting → IsNumberable r → ImageMeansTheSame does r }
{}

/// Region code whose parts fit together may be numbered: an image can say whatever it says.
pub fn every_rlang_is_numberable()
    ensures { (r : Rlang) → IsRlang r → IsNumberable r }
{}

/// The region code of a program whose parts fit together may be numbered, also where it has more
/// region variables or points than region code is given.
pub fn region_code_is_numberable()
    ensures { (program : Program) → IsWellTyped program → IsNumberable (region_of_program program) }
{}

/// In the world of the language's definition the image of a program whose parts fit together does
/// what the program does, on every input of bytes and under all limits: the same acts in the same
/// order, as many bytes taken, and the same end. Where it exits it leaves the same heap.
pub fn images_mean_the_same_in_the_source()
    ensures means { (program : Program) → IsWellTyped program → ViewMeansTheSame program }
    ensures leaves { (program : Program) → IsWellTyped program → ViewLeavesTheSame program }
{}

/// In the world of the language's definition calls give back what waits.
pub fn calls_of_the_source_give_back_what_waits()
    ensures { Waiting source (λ (w : World). w.waiting) }
{}
