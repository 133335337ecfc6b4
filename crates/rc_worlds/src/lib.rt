//! Images over two worlds: a sound image means the same over a store that keeps live regions and counts
//! as over the source's world, which keeps every region and looks at each cell.
//!
//! `specs/` is to be read in the order of `specs/Lib.antt`: `Worlds` has what a store sees of the
//! source's world, `Typed` what a run keeps, and `Meanings`, `Translated`, `States` and `SmallSteps`
//! what the laws say.
#![tactic(auto)]

ghost use Rattle.std.specs.Prelude.{ℕ, true, false, List};
ghost use Rattle.std.specs.List.{AllByRecursion as Every};
ghost use Rattle.rc_base.specs.declared.ends.Limits.{Limits};
ghost use Rattle.rc_core.specs.Numbers.{IsByte};
ghost use Rattle.rc_code.specs.declared.image.Parts.{Parts};
ghost use Rattle.rc_code.specs.Image.{FieldsFit};
ghost use Rattle.rc_code.specs.Soundness.{Sound, SoundUnmarked};
ghost use Rattle.rc_worlds.specs.Meanings.{looking, counting, GlobalsHaveBytes, world_meaning, AreTheSame, IsNotStale};
ghost use Rattle.rc_core.specs.Programs.{Program};
ghost use Rattle.rc_worlds.specs.Worlds.{Compared};
ghost use Rattle.rc_worlds.specs.Translated.{IsTranslated, IsCarried};
ghost use Rattle.rc_worlds.specs.States.{StepsInOrder};
ghost use Rattle.rc_worlds.specs.SmallSteps.{StepsMean};
ghost use Rattle.rc_worlds.specs.Examples.{Examples};

/// The meaning of a sound image, whose heap keeps live regions only, pins values that wait and counts
/// references, is its meaning over the source's world, where a deletion looks at each cell: the same
/// acts, the same bytes taken, the same end with its line, and the same regions, objects and values
/// left. It holds for every image that keeps the rules of its fields and of its code, however foreign,
/// on every input and under any limits.
///
/// `unmarked` says it where no store has a mark. `marked` says it where some have, and where the run
/// over the source's world makes each check that a mark leaves out and never finds that one fails:
/// a failed one counts as a dead region touched. `trusted` says it of any marks, right or wrong, where
/// the run over the source's world leaves out the same checks and counts at a deletion.
pub fn stores_mean_what_the_source_means()
    ensures unmarked { (parts : Parts) → FieldsFit parts → SoundUnmarked parts → (input : List ℕ) (limits : Limits) → AreTheSame parts (looking false parts) input limits }
    ensures marked { (parts : Parts) → FieldsFit parts → Sound parts → (input : List ℕ) (limits : Limits) → IsNotStale (world_meaning (looking true parts) input limits) → AreTheSame parts (looking true parts) input limits }
    ensures trusted { (parts : Parts) → FieldsFit parts → Sound parts → (input : List ℕ) (limits : Limits) → AreTheSame parts (counting false parts) input limits }
{}

/// The same of an image that a program was translated to, and of the program's first world: over the
/// source's world objects keep the layouts of the source, and the store has them as the image writes
/// them.
pub fn translated_images_are_carried()
    ensures { (image : Compared) (p : Program) → IsTranslated image p → (input : List ℕ) (limits : Limits) → IsCarried image p input limits }
{}

/// In a run of a sound image no operand is missing or of a wrong kind. After however many instructions,
/// the function and the instruction that come next are there, each operand of the instruction names
/// what is there, and the values on the stack, in the locals and in all cells have the kinds that one
/// pass over the function, and the layouts, find: a number for a number, null or a region that was
/// made, null or a pointer to an element, or the end, of an object that was made with the cells of the
/// pointer's type.
///
/// `ranges` says besides, where the input and the first values of globals are bytes, that each number is
/// in the range of its kind, and that a `char` local or cell has a byte.
///
/// `fitting` says it where no store has a mark, of the run over the source's world that looks: there no
/// cell of a live region names a dead one, and annotated cells fit. The others say it of the run that
/// counts. The store is at each moment what a store sees of that world.
pub fn operands_are_there_and_of_their_kinds()
    ensures kinds { (parts : Parts) → FieldsFit parts → Sound parts → (input : List ℕ) (limits : Limits) (n : ℕ) → StepsInOrder parts (counting false parts) input limits n }
    ensures ranges { (parts : Parts) → FieldsFit parts → Sound parts → GlobalsHaveBytes parts → (input : List ℕ) → Every IsByte input → (limits : Limits) (n : ℕ) → StepsInOrder parts (counting true parts) input limits n }
    ensures fitting { (parts : Parts) → FieldsFit parts → SoundUnmarked parts → (input : List ℕ) (limits : Limits) (n : ℕ) → StepsInOrder parts (looking false parts) input limits n }
{}

/// A run one instruction after another, with a list of callers, is the meaning: from some number of steps
/// on it has ended, with the meaning's acts, bytes taken, end and heap, and at no number of steps it has
/// ended otherwise.
pub fn steps_come_to_the_meaning()
    ensures { (parts : Parts) → FieldsFit parts → Sound parts → (input : List ℕ) (limits : Limits) → StepsMean parts input limits }
{}

/// The definitions give small images the ends, and the bytes, that they should have, and tell sound
/// ones from others.
pub fn images_compute()
    ensures { Examples }
{}
