// Labelled code and the world of labels keep the rules of region code and of worlds by which stack
// code and images mean the same.
ghost use Rattle.std.specs.Prelude.{ℕ, Bool};
ghost use Rattle.rc_core.specs.Runs.{Ops};
ghost use Rattle.rc_rlang.specs.RegionCode.{Rlang};
ghost use Rattle.rc_emission.specs.Means.{IsOrdered};
ghost use Rattle.rc_emission.specs.Turns.{Turning};
ghost use Rattle.rc_numbering.specs.Means.{IsNumberable};
ghost use Rattle.rc_numbering.specs.Waits.{Waiting};
ghost use Rattle.rc_along.specs.MarkedRuns.{Put};
ghost use Rattle.rc_labels.specs.Labels.{Numbering};
ghost use Rattle.rc_labels.specs.Labelled.{labelled};
ghost use Rattle.rc_labels.specs.LabelledWorlds.{labelled_ops};
ghost use Rattle.rc_labels.specs.LabelledImages.{ImageDoesWhatMarkedCodeDoes};
ghost use Rattle.rc_labels.specs.PutLaws.{MakesNoTurns, KeepsWaiting};

/// Of a world in which turns are counted, and whose calls give back what waits, the world of labels
/// is such a world too, where what is done at a store makes no turns and keeps what waits.
pub fn labelled_worlds_count_and_wait<W, V>()
    ensures counts { (n : Numbering) (ops : Ops W) (put : Put W) → Turning ops → MakesNoTurns ops put → Turning (labelled_ops n ops put) }
    ensures waits { (n : Numbering) (ops : Ops W) (put : Put W) (waiting : W → V) → Waiting ops waiting → KeepsWaiting put waiting → Waiting (labelled_ops n ops put) waiting }
{}

/// Labelled code keeps what emission and numbering ask of region code: its temporaries stand in
/// order, its types agree, what it names is there, and an image can say it.
pub fn labelled_code_is_as_well_formed()
    ensures ordered { (n : Numbering) (marks : (function point : ℕ) → Bool) (r : Rlang) → IsOrdered r → IsOrdered (labelled n marks r) }
    ensures numberable { (n : Numbering) (marks : (function point : ℕ) → Bool) (r : Rlang) → IsNumberable r → IsNumberable (labelled n marks r) }
{}

/// The image of labelled code does in the world of labels what the code does with marked stores, once
/// the label at which it stopped, if at any, is read as a line: in every world in which turns are
/// counted and calls give back what waits, and whatever is done at a store that makes no turns and
/// keeps what waits.
pub fn images_of_labelled_code_do_what_marked_code_does<W, V>()
    ensures { (n : Numbering) (ops : Ops W) (put : Put W) (waiting : W → V) → Turning ops → MakesNoTurns ops put → Waiting ops waiting → KeepsWaiting put waiting → (marks : (function point : ℕ) → Bool) (r : Rlang) → IsNumberable r → ImageDoesWhatMarkedCodeDoes n ops put marks r }
{}
