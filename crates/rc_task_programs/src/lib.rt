//! Accepted texts of tasks, and what they mean.
#![tactic(auto)]

ghost use Rattle.std.specs.Prelude.{◌≡◌, ◌<◌, ℕ, suc, List, [], ◌∷◌, ◌++◌, length};
ghost use Rattle.std.specs.List.{AllByRecursion as Every};
ghost use Rattle.rc_base.specs.Limits.{most_text_bytes};
ghost use Rattle.rc_base.specs.declared.ends.Limits.{Limits};
ghost use Rattle.rc_syntax.specs.Bytes.{line_behind};
ghost use Rattle.rc_core.specs.Numbers.{IsByte};
ghost use Rattle.rc_core.specs.Programs.{Program};
ghost use Rattle.rc_core.specs.Meaning.{meaning};
ghost use Rattle.rc_compile.specs.Acceptance.{Accepted, Refused};
ghost use Rattle.rc_compile.specs.declared.refusal.Refusal.TheVariants.{TooLong};
ghost use Rattle.rc_tasks.specs.Tasks.{task_meaning};
ghost use Rattle.rc_tasks.specs.Appended.{appended};
ghost use Rattle.rc_task_text.specs.TaskText.{AreChoices, task_text_of};
ghost use Rattle.rc_task_trees.specs.Choices.{choices_of};
ghost use Rattle.rc_task_programs.specs.Accepted.{tasks_in};

/// The program of an accepted text of tasks is what its tasks are, with the three items behind them
/// (`appended`), and it means what the tasks mean under the choices (`same`): the same acts, as many bytes
/// of the input taken, and the same end.
pub fn accepted_tasks_run()
    ensures appended { (text digits : List ℕ) (program : Program) → Every IsByte text → AreChoices digits → (accepted : Accepted (task_text_of text digits) program) → program ≡ appended (tasks_in (task_text_of text digits) program accepted) (choices_of digits) (suc (line_behind (text ++ 10 ∷ []))) }
    ensures same { (text digits : List ℕ) (program : Program) (input : List ℕ) (limits : Limits) → Every IsByte text → AreChoices digits → (accepted : Accepted (task_text_of text digits) program) → meaning program input limits ≡ task_meaning (tasks_in (task_text_of text digits) program accepted) (choices_of digits) input limits }
{}

/// With its lines a text is longer (`longer`). So where the text of a file is too long for a program, it
/// is too long with them, and is refused so (`too_long`).
pub fn task_texts_are_longer()
    ensures longer { (text digits : List ℕ) → length text < length (task_text_of text digits) }
    ensures too_long { (text digits : List ℕ) → most_text_bytes < length text → Refused (task_text_of text digits) TooLong }
{}
