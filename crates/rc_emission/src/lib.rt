//! Stack code for region code, and that it keeps what region code means.
#![tactic(auto)]

ghost use Rattle.rc_core.specs.Programs.{Program};
ghost use Rattle.rc_core.specs.Runs.{Ops};
ghost use Rattle.rc_core.specs.Source.{source};
ghost use Rattle.rc_core.specs.WellTyped.{IsWellTyped};
ghost use Rattle.rc_rlang.specs.RegionCode.{Routine, Rlang};
ghost use Rattle.rc_emission.specs.Means.{Serves, IsOrdered, MeansTheSame, MeansTheSameWith, ServesAll, FunctionsMeanTheSame};
ghost use Rattle.rc_emission.specs.Pieces.{ExpressionsMeanTheSame, StatementsMeanTheSame};
ghost use Rattle.rc_emission.specs.ProgramsMean.{ProgramMeansTheSame, ProgramLeavesTheSame};
ghost use Rattle.rc_emission.specs.StatementCode.{Slots};
ghost use Rattle.rc_emission.specs.StackExamples.{Examples};
ghost use Rattle.rc_emission.specs.Turns.{Turning};

/// The stack code of a program does what its region code does, in every world in which turns are
/// counted, whatever the world's operations are: it is the same run. The same is true with any
/// locals for operands that stand behind the source's and apart, as far as they are needed.
pub fn stack_code_means_the_same<W>()
    ensures chosen { (ops : Ops W) (r : Rlang) → Turning ops → IsOrdered r → MeansTheSame ops r }
    ensures any_locals { (ops : Ops W) (r : Rlang) (slots : Routine → Slots) → Turning ops → ServesAll slots r → MeansTheSameWith ops slots r }
{}

/// The code of an expression does the expression's operations and then what the code behind it
/// does with its value; the code of a statement does what the statement does and then what the
/// code does that it leads to. So it is with all locals for operands that serve the function.
pub fn pieces_mean_the_same<W>()
    ensures expressions { (ops : Ops W) (f : Routine) (slots : Slots) → Serves f slots → ExpressionsMeanTheSame ops f slots }
    ensures statements { (ops : Ops W) (f : Routine) (slots : Slots) → Serves f slots → Turning ops → StatementsMeanTheSame ops f slots }
{}

/// The stack code of a function does with its arguments what the function's region code does with
/// them, over all calls that make no turns.
pub fn functions_mean_the_same<W>()
    ensures { (ops : Ops W) (r : Rlang) → Turning ops → IsOrdered r → FunctionsMeanTheSame ops r }
{}

/// The stack code of a program whose parts fit together does what the program does, on every input
/// of bytes and under all limits: the same acts in the same order, as many bytes taken, and the
/// same end. Where it exits it leaves the same heap.
pub fn programs_mean_the_same()
    ensures means { (program : Program) → IsWellTyped program → ProgramMeansTheSame program }
    ensures leaves { (program : Program) → IsWellTyped program → ProgramLeavesTheSame program }
{}

/// In the world of the language's definition turns are counted.
pub fn turns_of_the_source_are_counted()
    ensures { Turning source }
{}

/// Twenty runs of whole programs, as stack code, have the ends, and write the bytes, that they
/// should; the definitions are run for it.
pub fn stack_examples_compute()
    ensures { Examples }
{}
