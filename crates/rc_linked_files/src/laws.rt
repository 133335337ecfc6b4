// What holds of files that are linked.
ghost use Rattle.std.specs.Prelude.{◌≡◌, ◌≤◌, ℕ, List, None, length};
ghost use Rattle.std.specs.List.{AllByRecursion as Every};
ghost use Rattle.rc_syntax.specs.Tree.{Tree as WrittenTree};
ghost use Rattle.rc_core.specs.Programs.{Program};
ghost use Rattle.rc_deletes.specs.Answer.{IsProgramOf};
ghost use Rattle.rc_deletes.specs.Limits.{IsLimited};
ghost use Rattle.rc_linking.specs.Joined.{joined};
ghost use Rattle.rc_linking.specs.Stubs.{IsUnit, stubbed};
ghost use Rattle.rc_linking.specs.Limits.{IsFileLimited, most_files};
ghost use Rattle.rc_linking.specs.Links.{large_of, link_refusal};

/// Files of which none is refused by itself, and that nothing keeps apart, are a program together.
pub fn files_have_a_program_together()
    ensures { (trees : List WrittenTree) → Every IsUnit trees → link_refusal trees ≡ None → (program : Program) × IsProgramOf (joined trees) program }
{}

/// Where the joined tree has a program, the globals of all files have few enough cells.
pub fn a_joined_program_is_not_large()
    ensures { (trees : List WrittenTree) (program : Program) → IsProgramOf (joined trees) program → large_of trees ≡ None }
{}

/// The joined tree of at most 16 files keeps the limits of programs.
pub fn joined_files_keep_limits()
    ensures { (trees : List WrittenTree) → length trees ≤ most_files → Every IsFileLimited trees → IsLimited (joined trees) }
{}

/// A file with its stubs keeps the limits that it keeps without them.
pub fn stubs_keep_limits()
    ensures { (line : ℕ) (tree : WrittenTree) → IsLimited tree → IsLimited (stubbed line tree) }
{}
