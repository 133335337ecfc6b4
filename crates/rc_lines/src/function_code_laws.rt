// The stack code of functions, in lists. `specs/ProgramCode` says when it is that of a program in region
// code.
ghost use Rattle.std.specs.Prelude.{◌≡◌, ℕ, List, length, slice_get, Some};
ghost use Rattle.rc_rlang.specs.RegionCode.{Routine, Rlang};
ghost use Rattle.rc_lines.specs.declared.function_code.FunctionCode.{FunctionCode as Made};
ghost use Rattle.rc_lines.specs.ProgramCode.{IsFunctionCode, IsProgramCode};

/// Where code is a program's, it has as many functions, and at the place of each function of the program
/// it has that function's code.
pub fn each_function_has_its_code()
    ensures count { (r : Rlang) (code : List Made) → IsProgramCode r code → length code ≡ length r.functions }
    ensures each { (r : Rlang) (code : List Made) → IsProgramCode r code → (k : ℕ) (f : Routine) (c : Made) → slice_get r.functions k ≡ Some f → slice_get code k ≡ Some c → IsFunctionCode r f c }
{}
