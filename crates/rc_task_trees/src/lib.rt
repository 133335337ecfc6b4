//! Texts of tasks: what their trees end with, and what their programs mean.
#![tactic(auto)]

ghost use Rattle.std.specs.Prelude.{◌≡◌, ℕ, suc, List, [], ◌∷◌, ◌++◌};
ghost use Rattle.std.specs.List.{AllByRecursion as Every};
ghost use Rattle.rc_base.specs.declared.ends.Limits.{Limits};
ghost use Rattle.rc_syntax.specs.Bytes.{line_behind};
ghost use Rattle.rc_syntax.specs.Tokens.{Token};
ghost use Rattle.rc_syntax.specs.Words.{Words};
ghost use Rattle.rc_syntax.specs.Tree.{Item};
ghost use Rattle.rc_syntax.specs.Grammar.{Text, node, placed, Derives};
ghost use Rattle.rc_core.specs.Numbers.{IsByte};
ghost use Rattle.rc_core.specs.Programs.{Program};
ghost use Rattle.rc_core.specs.Meaning.{meaning};
ghost use Rattle.rc_tasks.specs.Tasks.{task_meaning};
ghost use Rattle.rc_tasks.specs.Appended.{appended};
ghost use Rattle.rc_task_items.specs.Items.{tasks_of_text, without_tasks};
ghost use Rattle.rc_task_text.specs.TaskText.{AreChoices, task_text_of};
ghost use Rattle.rc_task_trees.specs.Choices.{choices_of};
ghost use Rattle.rc_task_trees.specs.Ends.{EndsWithTasks};
ghost use Rattle.rc_task_trees.specs.Programs.{TypesTasks};

/// Behind bytes stand bytes.
pub fn task_texts_are_bytes()
    ensures { (text digits : List ℕ) → Every IsByte text → AreChoices digits → Every IsByte (task_text_of text digits) }
{}

/// The tree of a text with the three lines behind it ends with their items, and what stands before them
/// is the tree of the words in front.
pub fn trees_of_tasks_end_with_the_three_items()
    ensures ends { (text digits : List ℕ) (tokens : List Token) (items : List Item) → AreChoices digits → Words (task_text_of text digits) tokens → Derives (placed 0 tokens) (node Text items) → EndsWithTasks text (choices_of digits) tokens items }
{}

/// The program of such a text is what its tasks are, with the three items behind them, of which `yield`
/// stands on the second line behind the text (`appended`). It means what the tasks mean under the
/// choices (`same`).
pub fn texts_of_tasks_run_the_tasks()
    ensures appended { (text digits : List ℕ) (items : List Item) (program : Program) → TypesTasks text digits items program → program ≡ appended (tasks_of_text items (without_tasks program)) (choices_of digits) (suc (line_behind (text ++ 10 ∷ []))) }
    ensures same { (text digits : List ℕ) (items : List Item) (program : Program) (input : List ℕ) (limits : Limits) → TypesTasks text digits items program → meaning program input limits ≡ task_meaning (tasks_of_text items (without_tasks program)) (choices_of digits) input limits }
{}
