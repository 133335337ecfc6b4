//! Programs of tasks. What such a program means under a list of choices is said in `specs/`, beside the
//! meaning of all programs, and nothing that runs the choices is named there. The laws say that the
//! program which `rc tasks` runs, with the appended lines as typed, means the same.
#![tactic(auto)]

ghost use Rattle.std.specs.Prelude.{◌≡◌, ℕ, List, Some, false, slice_get};
ghost use Rattle.rc_base.specs.declared.ends.Limits.{Limits};
ghost use Rattle.rc_core.specs.Meaning.{meaning};
ghost use Rattle.rc_core.specs.Programs.{Function};
ghost use Rattle.rc_core.specs.Typing.{IsTyped};
ghost use Rattle.rc_tasks.specs.Tasks.{Tasks, declared, task_meaning};
ghost use Rattle.rc_tasks.specs.Examples.{Examples};
ghost use Rattle.rc_tasks.specs.Appended.{ChooseTasks, HasOwnNames, appended};

/// A program of tasks with the three appended items means what its tasks mean under the choices: the
/// same acts in the same order, as many bytes of the input taken, and the same end, on every input and
/// within all limits.
pub fn appended_items_run_the_tasks()
    ensures same { (t : Tasks) (choices input : List ℕ) (line : ℕ) (limits : Limits) → HasOwnNames t.program → ChooseTasks choices → meaning (appended t choices line) input limits ≡ task_meaning t choices input limits }
{}

/// Functions that have types where `yield` and `main` are declared name only the program's own globals
/// and strings.
pub fn typed_functions_have_own_names()
    ensures own { (t : Tasks) → ((k : ℕ) (f : Function) → slice_get t.program.functions k ≡ Some f → IsTyped (declared t) f false f.body) → HasOwnNames t.program }
{}

/// Small programs of tasks have the ends, and write the bytes, that they should; the definitions are
/// run for it.
#[tactic(auto, using(crate::proofs::Computed::examples))]
pub fn examples_compute()
    ensures { Examples }
{}
