// The region code of a program is region code whose parts fit together.
ghost use Rattle.rc_core.specs.Programs.{Program};
ghost use Rattle.rc_core.specs.WellTyped.{IsWellTyped};
ghost use Rattle.rc_rlang.specs.Bounds.{IsWithinBounds};
ghost use Rattle.rc_translation.specs.Keeps.{FitsTogether, HasItsVariables};

/// The region code of a program whose parts fit together, and which keeps within the bounds of
/// region variables and points, is region code whose parts fit together.
pub fn region_code_fits_together()
    ensures { (program : Program) → IsWellTyped program → IsWithinBounds program → FitsTogether program }
{}

/// The region code of any program, typed or not, has in each function as many region variables as
/// are counted on the program.
pub fn region_code_needs_the_same()
    ensures { (program : Program) → HasItsVariables program }
{}
