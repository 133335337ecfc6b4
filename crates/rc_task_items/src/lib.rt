//! The three lines that stand behind a text of tasks, as trees: what they are typed to.
#![tactic(auto)]

ghost use Rattle.std.specs.Prelude.{◌≡◌, ◌≤◌, ◌++◌, suc, ℕ, List, length};
ghost use Rattle.rc_syntax.specs.Tree.{Item};
ghost use Rattle.rc_core.specs.Programs.{Program};
ghost use Rattle.rc_core.specs.WellTyped.{IsWellTyped};
ghost use Rattle.rc_deletes.specs.Items.{Typed};
ghost use Rattle.rc_deletes.specs.Ranges.{ItemsInRange};
ghost use Rattle.rc_tasks.specs.Tasks.{Tasks};
ghost use Rattle.rc_tasks.specs.Appended.{appended, HasOwnNames};
ghost use Rattle.rc_task_items.specs.Items.{appended_items, tasks_of_text, without_tasks};

/// Where a tree ends with the items of the three lines, its program is that of the items in front, with
/// those three behind it as typed.
pub fn appended_lines_are_typed()
    ensures same { (is : List Item) (choices : List ℕ) (places : ℕ → ℕ → ℕ) (line : ℕ) (program : Program) → length choices ≤ 1000 → Typed (record { items = is ++ appended_items choices places line }) program → (tk : Tasks) × (program ≡ appended tk choices (suc line)) × (tk ≡ tasks_of_text (is ++ appended_items choices places line) tk.program) }
{}

/// That program of the items in front is the whole one with the ends of three of its lists left out,
/// and its functions name only its own globals and strings.
pub fn typed_tasks_have_own_names()
    ensures own { (is : List Item) (choices : List ℕ) (places : ℕ → ℕ → ℕ) (line : ℕ) (program : Program) → length choices ≤ 1000 → ItemsInRange (is ++ appended_items choices places line) → IsWellTyped program → Typed (record { items = is ++ appended_items choices places line }) program → (program ≡ appended (tasks_of_text (is ++ appended_items choices places line) (without_tasks program)) choices (suc line)) × HasOwnNames (without_tasks program) }
{}
