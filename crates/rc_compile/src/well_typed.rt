// What is known of the program of a text that is accepted.
ghost use Rattle.std.specs.Prelude.{ℕ, List};
ghost use Rattle.std.specs.List.{AllByRecursion as Every};
ghost use Rattle.rc_compile.specs.Acceptance.{Accepted};
ghost use Rattle.rc_core.specs.Numbers.{IsByte};
ghost use Rattle.rc_core.specs.Programs.{Program};
ghost use Rattle.rc_core.specs.WellTyped.{IsWellTyped};

/// Bytes that are accepted as a program are accepted as one that is well typed.
pub fn accepted_texts_are_well_typed()
    ensures { (text : List ℕ) (program : Program) → Every IsByte text → Accepted text program → IsWellTyped program }
{}
