// What each instruction of a sound image asks of a machine, and what it does there: the definitions and
// the laws on which the machine's functions stand, instruction by instruction. A machine has its place in
// the code, a pile of words, and a heap; beside it there is a world with every region that was ever made,
// in which the same image runs one instruction after another.
//
// `specs/` is to be read in the order of `specs/Lib.antt`: `Places` says where a machine is in the code,
// `Stands` what its pile and its heap stand for, `Leads` what it is to go on, `Ready` what holds before
// each instruction, and `Follows` what the machine's end says of the image's meaning.
ghost use Rattle.std.specs.Prelude.{◌≡◌, ℕ, List};
ghost use Rattle.rc_code.specs.declared.instruction.Instruction.{Instruction};
ghost use Rattle.rc_code.specs.declared.image.Parts.{Parts};
ghost use Rattle.rc_code.specs.Faithful.{Faithful};
ghost use Rattle.rc_code.specs.Image.{FieldsFit};
ghost use Rattle.rc_code.specs.Running.{reading_of, function_at};
ghost use Rattle.rc_code.specs.Soundness.{Sound, instruction_at};
ghost use Rattle.rc_store.specs.Kept.{KeptStore};
ghost use Rattle.rc_pile.specs.Stacks.{Stack};
ghost use Rattle.rc_steps.specs.Places.{At};
ghost use Rattle.rc_steps.specs.Stands.{Stands};
ghost use Rattle.rc_steps.specs.Ready.{IsReady};
ghost use Rattle.rc_steps.specs.Follows.{Follows, MarksFit};
ghost use Rattle.rc_worlds.specs.Meanings.{GlobalsHaveBytes};
ghost use Rattle.rc_core.specs.Numbers.{IsByte};
ghost use Rattle.rc_base.specs.declared.ends.Limits.{Limits};
ghost use Rattle.std.specs.List.{AllByRecursion as Every};

/// Where a machine stands in a run of a sound image, what the next instruction needs is there: its
/// operands with their kinds and ranges, its locals, the regions, objects and cells that it touches, and
/// room for what it gives. And `IsReady` says where the machine goes on, or how the run ends, as the
/// image's step does. Of a store with a mark, which makes no check, it says so where the value fits.
pub fn instructions_are_ready()
    ensures { (parts : Parts) → FieldsFit parts → Sound parts → (at : At) (pile : Stack) (heap : KeptStore) → Stands parts at pile heap → (i : Instruction) → instruction_at (function_at (reading_of parts) at.function) at.place ≡ i → IsReady parts at pile heap i }
{}

/// A machine that follows an image, one instruction after another, comes to its meaning: from a heap
/// that keeps the first store it begins where `main` does, and where an instruction ends the run, the
/// meaning has the machine's acts and that end. Behind an exit the heap keeps what is left.
pub fn machines_come_to_the_meaning()
    ensures { (parts : Parts) → FieldsFit parts → Sound parts → GlobalsHaveBytes parts → (input : List ℕ) → Every IsByte input → (limits : Limits) → Follows parts input limits }
{}

/// In a run of a faithful image, whose marks are right, a store with a mark meets no value that doesn't
/// fit: where it comes to write, the annotation holds.
pub fn marked_values_fit()
    ensures { (parts : Parts) → FieldsFit parts → Sound parts → Faithful parts → GlobalsHaveBytes parts → (input : List ℕ) → Every IsByte input → (limits : Limits) → MarksFit parts input limits }
{}
