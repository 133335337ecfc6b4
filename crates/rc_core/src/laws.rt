// Laws that every run of the source keeps.

ghost use Rattle.std.specs.Prelude.{ℕ, suc, ◌≡◌, ◌≢◌, ◌<◌, ◌≤◌, ◌++◌, List, length, drop, IsFalse, Some};
ghost use Rattle.rc_base.specs.Acts.{Act, getchars};
ghost use Rattle.rc_base.specs.declared.ends.End.TheVariants.{Spent};
ghost use Rattle.rc_base.specs.declared.ends.Limits.{Limits};
ghost use Rattle.rc_core.specs.Programs.{Program};
ghost use Rattle.rc_core.specs.Heap.{Handle, Value, live, object_at, objects, parent};
ghost use Rattle.rc_core.specs.Runs.{Ends};
ghost use Rattle.rc_core.specs.Execution.{calls_within};
ghost use Rattle.rc_core.specs.Source.{World, source};
ghost use Rattle.rc_core.specs.Meaning.{left, meaning};
ghost use Rattle.rc_core.specs.Laws.{Always, IfGoes};

/// The turns that are left never grow, a run is stopped for want of turns only where none is
/// left, and how many calls may stand inside one another doesn't matter above that.
pub fn turns_never_grow()
    ensures fewer { Always (λ before stop after. after.turns ≤ before.turns) }
    ensures spent { Always (λ before stop after. stop ≡ Some (Ends Spent) → after.turns ≡ 0) }
    ensures enough { (program : Program) (n m f : ℕ) (arguments : List Value) (w : World) → w.turns < n → w.turns < m → calls_within source program n f arguments w ≡ calls_within source program m f arguments w }
{}

/// Acts are added behind those that were done, and the input loses the bytes that they asked for.
pub fn acts_are_added()
    ensures { Always (λ before stop after. (acts : List Act) × (after.acts ≡ before.acts ++ acts) × (after.input ≡ drop (getchars acts) before.input)) }
{}

/// A new region has a number that none had before, and keeps its parent; a dead region stays dead.
/// Objects keep their numbers, layouts and lengths, and the limits stay.
pub fn regions_keep_their_numbers()
    ensures new { (line : ℕ) (w : World) → IfGoes (λ r now. (r ≡ Handle (length w.heap)) × (length now.heap ≡ suc (length w.heap))) (source.new_region line w) }
    ensures subregion { (line : ℕ) (p : Value) (w : World) → IfGoes (λ r now. (r ≡ Handle (length w.heap)) × (length now.heap ≡ suc (length w.heap))) (source.new_subregion line p w) }
    ensures made { Always (λ before stop after. length before.heap ≤ length after.heap) }
    ensures parents { Always (λ before stop after. (r : ℕ) → r < length before.heap → parent after.heap r ≡ parent before.heap r) }
    ensures dead { Always (λ before stop after. (r : ℕ) → r < length before.heap → IsFalse (live before.heap r) → IsFalse (live after.heap r)) }
    ensures objects { Always (λ before stop after. (r o : ℕ) → r < length before.heap → o < length (objects before.heap r) → o < length (objects after.heap r)) }
    ensures layouts { Always (λ before stop after. (r o : ℕ) → r < length before.heap → o < length (objects before.heap r) → (object_at after.heap r o).layout ≡ (object_at before.heap r o).layout) }
    ensures lengths { Always (λ before stop after. (r o : ℕ) → r < length before.heap → o < length (objects before.heap r) → (object_at after.heap r o).count ≡ (object_at before.heap r o).count) }
    ensures limits { Always (λ before stop after. (after.regions ≡ before.regions) × (after.blocks ≡ before.blocks)) }
{}

/// A program that doesn't spend its turns does the same under any larger limit of turns.
pub fn more_turns_change_nothing()
    ensures same { (program : Program) (input : List ℕ) (limits : Limits) (turns : ℕ) → limits.turns ≤ turns → (meaning program input limits).end ≢ Ends Spent → meaning program input (record limits { turns = turns }) ≡ meaning program input limits }
    ensures left { (program : Program) (input : List ℕ) (limits : Limits) (turns : ℕ) → limits.turns ≤ turns → (meaning program input limits).end ≢ Ends Spent → left program input (record limits { turns = turns }) ≡ left program input limits }
{}
