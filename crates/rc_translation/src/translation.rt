// The translation from programs to region code, and that it keeps what a program means.
ghost use Rattle.rc_core.specs.Programs.{Program};
ghost use Rattle.rc_core.specs.WellTyped.{IsWellTyped};
ghost use Rattle.rc_translation.specs.Means.{MeansTheSame, LeavesTheSame, HasItsPoints, HasItsLocalsLive, FitsTemporaries};
ghost use Rattle.rc_translation.specs.RegionExamples.{Examples};

/// The region code of a program whose parts fit together does what the program does, on every
/// input of bytes and under all limits: the same acts in the same order, as many bytes taken, and
/// the same end. Where it exits it leaves the same heap.
pub fn region_code_means_the_same()
    ensures means { (program : Program) → IsWellTyped program → MeansTheSame program }
    ensures leaves { (program : Program) → IsWellTyped program → LeavesTheSame program }
{}

/// The region code of any program, typed or not, has as many points as are counted on the program,
/// and before each statement's code the same locals are live as before the statement.
pub fn region_code_counts_the_same()
    ensures points { (program : Program) → HasItsPoints program }
    ensures live { (program : Program) → HasItsLocalsLive program }
{}

/// In the region code of a program whose parts fit together each temporary is read once, at the
/// height at which it was written, by the type with which it was written, and between statements
/// none is kept. So a temporary is an operand of a stack machine.
pub fn temporaries_stand_in_order()
    ensures { (program : Program) → IsWellTyped program → FitsTemporaries program }
{}

/// Twenty runs of whole programs, as region code, have the ends, and write the bytes, that they
/// should; the definitions are run for it.
pub fn region_examples_compute()
    ensures { Examples }
{}
