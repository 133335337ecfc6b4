// Labels in place of the lines of region code, by which each store is told apart. `specs/Labels`
// says what a label tells, `specs/Labelled` puts labels into code, and `specs/LabelledWorlds` makes
// of a world one that reads them.
ghost use Rattle.std.specs.Prelude.{◌≡◌, ℕ, Bool};
ghost use Rattle.rc_core.specs.Runs.{Ops};
ghost use Rattle.rc_rlang.specs.RegionCode.{Rlang};
ghost use Rattle.rc_along.specs.MarkedRuns.{Put};
ghost use Rattle.rc_labels.specs.Labels.{Label, Numbering};
ghost use Rattle.rc_labels.specs.Numberings.{number_of, label_in};
ghost use Rattle.rc_labels.specs.Laws.{DoesWhatMarkedCodeDoes};

/// Labelled code does in the world of labels what code does with marked stores, in every world and
/// whatever is done at a store with a mark: it is the same run, once the label at which it stopped,
/// if at any, is read as a line.
pub fn labelled_code_does_what_marked_code_does<W>()
    ensures { (n : Numbering) (ops : Ops W) (put : Put W) (marks : (function point : ℕ) → Bool) (r : Rlang) → DoesWhatMarkedCodeDoes n ops put marks r }
{}

/// There is a numbering of labels: each label is read again from its number.
pub fn there_is_a_numbering()
    ensures { (l : Label) → label_in (number_of l) ≡ l }
{}
