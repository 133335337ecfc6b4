//! The stack code that region code becomes keeps a loader's rules.
#![tactic(auto)]

ghost use Rattle.std.specs.Prelude.{ℕ, Bool, List};
ghost use Rattle.rc_core.specs.Programs.{Program};
ghost use Rattle.rc_core.specs.Types.{Ty};
ghost use Rattle.rc_core.specs.WellTyped.{IsWellTyped};
ghost use Rattle.rc_rlang.specs.RegionCode.{Routine, Rlang};
ghost use Rattle.rc_rlang.specs.IsRlang.{IsRlang};
ghost use Rattle.rc_rlang.specs.RegionRuns.{pins_from};
ghost use Rattle.rc_stack_rules.specs.LoaderRules.{Pins};
ghost use Rattle.rc_stack_rules.specs.Named.{HasLocals, NamesLocals, AllNameLocals, RlangKeepsRules};
ghost use Rattle.rc_stack_rules.specs.Loadable.{IsInOrder, KeepsRules, EndsInReturn, AllKeepRules};

/// The stack code of a function whose region code is in order keeps the loader's rules: each
/// instruction finds operands of its kinds, the stack is empty at jumps and where they lead, and
/// they lead to instructions.
pub fn functions_keep_the_rules()
    ensures { (global_ty result_ty : ℕ → Ty) (f : Routine) → IsInOrder global_ty result_ty f → KeepsRules global_ty result_ty f }
{}

/// The stack code of a program whose parts fit together keeps the loader's rules.
pub fn programs_keep_the_rules()
    ensures { (program : Program) → IsWellTyped program → AllKeepRules program }
{}

/// A function's stack code ends in a return.
pub fn functions_end_in_a_return()
    ensures { (f : Routine) → EndsInReturn f }
{}

/// Each local that stack code names is there, and what deletions and calls hold are locals of the
/// source that are regions or pointers, in order: in a function whose region code's temporaries
/// stand in order and whose locals are there, and in every program whose parts fit together.
pub fn locals_are_there()
    ensures functions { (f : Routine) → HasLocals f → NamesLocals f }
    ensures programs { (program : Program) → IsWellTyped program → AllNameLocals program }
{}

/// What a deletion holds stands in order, each once, and is a local that is a region or a pointer.
pub fn pins_stand_in_order()
    ensures { (locals : List Ty) (live : ℕ → Bool) → Pins locals 0 (pins_from locals 0 live) }
{}

/// The stack code of each function of region code whose parts fit together keeps the loader's rules,
/// and each local that it names is there.
pub fn region_code_keeps_the_rules()
    ensures { (r : Rlang) → IsRlang r → RlangKeepsRules r }
{}
