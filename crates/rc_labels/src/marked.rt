// Images with marks do what region code with marked stores does. `specs/InOrder` says which store of an
// image has which mark, and `specs/MarkedLaws` what the laws say.
ghost use Rattle.std.specs.Prelude.{ℕ, Bool};
ghost use Rattle.rc_core.specs.Runs.{Ops};
ghost use Rattle.rc_rlang.specs.RegionCode.{Rlang};
ghost use Rattle.rc_annotations.specs.Annotations.{AllRemovable};
ghost use Rattle.rc_emission.specs.Turns.{Turning};
ghost use Rattle.rc_code.specs.Running.{Doing};
ghost use Rattle.rc_numbering.specs.Means.{IsNumberable};
ghost use Rattle.rc_numbering.specs.Waits.{Waiting};
ghost use Rattle.rc_along.specs.MarkedRuns.{Put};
ghost use Rattle.rc_labels.specs.Labels.{Numbering};
ghost use Rattle.rc_labels.specs.Labelled.{labelled};
ghost use Rattle.rc_labels.specs.PutLaws.{MakesNoTurns, KeepsWaiting};
ghost use Rattle.rc_labels.specs.InOrder.{OnlyWhereAsked};
ghost use Rattle.rc_labels.specs.MarkedLaws.{KeepsZero, LabelsStandForLines, NamesTheSame, UndoesLabels, DoesWhatMarkedCodeDoes};

/// Stack code doesn't look at lines. The stack code of labelled region code is that of the region
/// code, instruction by instruction, with labels from which the lines are read; the marks that the
/// labels tell of its stores to annotated cells are those of the region code's sites, in order
/// (`code`). And it names the same types and paths, in the same order (`names`).
pub fn stack_code_keeps_labels_for_lines()
    ensures code { (n : Numbering) → KeepsZero n → (marks : (function point : ℕ) → Bool) (r : Rlang) → LabelsStandForLines n marks r }
    ensures names { (n : Numbering) → KeepsZero n → (marks : (function point : ℕ) → Bool) (r : Rlang) → NamesTheSame (labelled n marks r) r }
{}

/// The image of labelled region code, in a world that reads labels, does what the image with marks
/// does, in every world, where marks stand at stores to annotated cells alone: it is the same run,
/// once the label that a stop names is read.
pub fn images_undo_labels<W>()
    ensures { (n : Numbering) → KeepsZero n → (ops : Ops W) (put : Put W) (marks : (function point : ℕ) → Bool) (r : Rlang) → OnlyWhereAsked r marks → UndoesLabels n ops put marks r }
{}

/// The image with marks does what region code with marked stores does, in every world in which turns
/// are counted and calls give back what waits, whatever it does at a store with a mark: it is the same
/// run. A store of the image has the mark of its point in region code. It is asked that what is done
/// at a store makes no turns and keeps what waits, that an image can say the code, and that marks stand
/// at stores to annotated cells alone.
pub fn images_with_marks_do_what_marked_code_does<W, V>()
    ensures { (does : Doing W) (waiting : W → V) (marks : (function point : ℕ) → Bool) (r : Rlang) → Turning does.ops → MakesNoTurns does.ops does.put → Waiting does.ops waiting → KeepsWaiting does.put waiting → IsNumberable r → OnlyWhereAsked r marks → DoesWhatMarkedCodeDoes does marks r }
{}

/// A check that may go asks for a fact; so marks at such checks stand at stores to annotated cells
/// alone.
pub fn removable_checks_ask()
    ensures { (r : Rlang) (temporaries : ℕ → ℕ) (marks : (function point : ℕ) → Bool) → AllRemovable r temporaries marks → OnlyWhereAsked r marks }
{}
