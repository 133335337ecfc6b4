// What holds of texts that are the files of one program, whatever they are.
ghost use Rattle.std.specs.Prelude.{◌≡◌, ◌≤◌, ℕ, List, length};
ghost use Rattle.std.specs.List.{AllByRecursion as Every};
ghost use Rattle.rc_core.specs.Deletes.{DeletesInPlace};
ghost use Rattle.rc_core.specs.Numbers.{IsByte};
ghost use Rattle.rc_core.specs.Programs.{Program};
ghost use Rattle.rc_core.specs.WellTyped.{IsWellTyped};
ghost use Rattle.rc_linking.specs.Limits.{most_files};
ghost use Rattle.rc_linked_texts.specs.Texts.{AreProgram, ComeTo, Together};

/// Whatever their bytes, texts come to one thing as the files of one program, and to no other: the first
/// that is no file is refused, or something keeps them apart, or they are a program.
pub fn texts_come_to_one_thing()
    ensures some { (texts : List (List ℕ)) → (together : Together) × ComeTo texts together }
    ensures one { (texts : List (List ℕ)) (one other : Together) → ComeTo texts one → ComeTo texts other → one ≡ other }
{}

/// At most 16 texts of bytes that are a program are a well-typed one.
pub fn linked_programs_are_well_typed()
    ensures { (texts : List (List ℕ)) (program : Program) → length texts ≤ most_files → Every (Every IsByte) texts → AreProgram texts program → IsWellTyped program }
{}

/// What texts are together only deletes in functions with `deletes`, and such calls stand by themselves.
pub fn linked_programs_delete_in_place()
    ensures { (texts : List (List ℕ)) (program : Program) → AreProgram texts program → DeletesInPlace program }
{}
