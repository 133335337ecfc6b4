//! Checks that facts prove needless never fail in the region code of a program. `specs/Laws` says what
//! the laws of facts ask of region code and of its runs.
#![tactic(auto)]

ghost use Rattle.rc_core.specs.Programs.{Program};
ghost use Rattle.rc_core.specs.WellTyped.{IsWellTyped};
ghost use Rattle.rc_checks.specs.Laws.{TypesAgree, RunsMeet, RemovedChecksNeverFail, FactsHold};

/// The region code of a program whose parts fit together meets what the laws of facts ask: its types
/// agree (`types`), and each run of it, on an input of bytes and under any limits, from where `main`
/// begins, meets them (`runs`): an access names the annotation that its cell has, and a region or a
/// pointer that is tested is no number, in `main` and in every call inside it.
pub fn programs_meet_what_facts_ask()
    ensures types { (program : Program) → IsWellTyped program → TypesAgree program }
    ensures runs { (program : Program) → IsWellTyped program → RunsMeet program }
{}

/// Facts are true of runs. In the region code of a program whose parts fit together each fact that a
/// consistent annotation has before a point holds of the values of the region variables and the heap,
/// each time that the run of `main` comes to the point (`Comes`), on every input of bytes and under all
/// limits: of locals, hidden copies and temporaries, in calls inside one another, in each round of a
/// loop, and within updates and struct copies.
pub fn facts_hold_whenever_the_run_is_there()
    ensures { (program : Program) → IsWellTyped program → FactsHold program }
{}

/// A check that may go never fails. The region code of a program whose parts fit together runs the
/// same, on every input of bytes and under all limits, where stores are marked whose checks may go
/// (for each, some consistent annotation has the fact that the check asks), and where a marked store
/// does what it likes with a value that doesn't fit: it is never given one.
pub fn removed_checks_never_fail()
    ensures { (program : Program) → IsWellTyped program → RemovedChecksNeverFail program }
{}
