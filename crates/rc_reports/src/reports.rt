// The report of region code: which checks of annotations are kept, and which are removed.
// `specs/Reports` says what it is.
ghost use Rattle.std.specs.Prelude.{◌≡◌, List};
ghost use Rattle.rc_rlang.specs.IsRlang.{IsRlang};
ghost use Rattle.rc_rlang.specs.RegionCode.{Rlang};
ghost use Rattle.rc_reports.specs.declared.entry.Entry.{Entry as AnEntry};
ghost use Rattle.rc_reports.specs.Reports.{IsReport};

/// Region code whose parts fit together has a report (`some`), and any region code has at most one
/// (`one`).
pub fn region_code_has_one_report()
    ensures some { (r : Rlang) → IsRlang r → (all : List AnEntry) × IsReport r all }
    ensures one { (r : Rlang) (a b : List AnEntry) → IsReport r a → IsReport r b → a ≡ b }
{}
