// Laws of runs that are cut short, and of what is left behind an exit: a machine that has come somewhere
// in the run of an image has done a front of the acts that the image means, and where `main` gives a
// value nothing is pinned. `specs/Fronts` says both.
ghost use Rattle.std.specs.Prelude.{ℕ, List};
ghost use Rattle.std.specs.List.{AllByRecursion as Every};
ghost use Rattle.rc_base.specs.declared.ends.Limits.{Limits};
ghost use Rattle.rc_core.specs.Numbers.{IsByte};
ghost use Rattle.rc_code.specs.declared.image.Parts.{Parts};
ghost use Rattle.rc_code.specs.Image.{FieldsFit};
ghost use Rattle.rc_code.specs.Soundness.{Sound};
ghost use Rattle.rc_worlds.specs.Meanings.{GlobalsHaveBytes};
ghost use Rattle.rc_machine.specs.Fronts.{HasFronts, ExitsUnpinned};

/// Where a machine has come to in the run of a sound image, its acts are a front of those that the image
/// means on this input. Where it asks for a byte the next act of the meaning is a `getchar`, and where it
/// writes one, a byte that is written.
pub fn acts_so_far_are_a_front()
    ensures { (parts : Parts) → FieldsFit parts → Sound parts → GlobalsHaveBytes parts → (input : List ℕ) → Every IsByte input → (limits : Limits) → HasFronts parts input limits }
{}

/// Where `main` of a sound image gives a value, the heap of the machine that has come there keeps what
/// the image leaves on this input, with nothing pinned and with the limits of the run.
pub fn nothing_is_pinned_behind_an_exit()
    ensures { (parts : Parts) → FieldsFit parts → Sound parts → GlobalsHaveBytes parts → (input : List ℕ) → Every IsByte input → (limits : Limits) → ExitsUnpinned parts input limits }
{}
