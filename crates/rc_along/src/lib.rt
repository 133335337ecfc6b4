//! Facts along runs of region code. `specs/Along` says what is asked of the types of region code, and
//! of a run, so that the facts of a consistent annotation hold along it; `specs/RunLaws` has the laws.
//! `specs/MarkedRuns` says what region code does with marked stores, whose checks may go, and
//! `specs/MarkedLaws` that it is the same.
#![tactic(auto)]

ghost use Rattle.std.specs.Prelude.{ℕ};
ghost use Rattle.rc_rlang.specs.RegionCode.{Rlang};
ghost use Rattle.rc_annotations.specs.Annotations.{Annotation, Consistent};
ghost use Rattle.rc_along.specs.ComesLaws.{FactsHoldWhenever};
ghost use Rattle.rc_along.specs.MarkedLaws.{MarkedCallsAreTheSame};
ghost use Rattle.rc_along.specs.RunLaws.{AllRight, StepsKeepFacts, CodeKeepsFacts, RemovedFits, CallsKeepFacts};

/// The facts of a consistent annotation hold along runs of region code over the source's world, where
/// the code's types agree and the run meets them: deletions, and locals that name deleted regions,
/// included.
///
/// `steps` says it of the steps of an expression, `code` of a statement, with all that is inside it,
/// and `calls` of calls inside one another: a call that is given the facts of its function's entry
/// gives back those of the exit. `removed` says that the check of a store finds that the value fits,
/// whenever the run comes to it, where the annotation has the fact that the check asks.
pub fn facts_hold_along_runs()
    ensures steps { (r : Rlang) (temporaries : ℕ → ℕ) (a : Annotation) → Consistent r temporaries a → StepsKeepFacts r temporaries a }
    ensures code { (r : Rlang) (temporaries : ℕ → ℕ) (a : Annotation) → Consistent r temporaries a → CodeKeepsFacts r temporaries a }
    ensures calls { (r : Rlang) (temporaries : ℕ → ℕ) (a : Annotation) → Consistent r temporaries a → CallsKeepFacts r temporaries a }
    ensures removed { (r : Rlang) (temporaries : ℕ → ℕ) (a : Annotation) → Consistent r temporaries a → RemovedFits r temporaries a }
{}

/// Each fact that a consistent annotation has before a point holds of the values of the region
/// variables, its temporaries included, each time that a run of `main` comes to the point: in calls
/// inside one another, in each round of a loop, and within updates and struct copies, where the code's
/// types agree and the run meets them.
pub fn facts_hold_whenever_the_run_is_there()
    ensures { (r : Rlang) (temporaries : ℕ → ℕ) (a : Annotation) → Consistent r temporaries a → FactsHoldWhenever r temporaries a }
{}

/// A check that facts prove needless never fails. In region code whose types agree, a call that meets
/// what facts ask, and is given the facts of its function's entry, runs the same where stores are
/// marked whose checks a consistent annotation proves needless, and where a marked store does what it
/// likes with a value that doesn't fit: stores inside updates and struct copies, and inside calls of
/// the call, too.
pub fn needless_checks_never_fail()
    ensures { (r : Rlang) (temporaries : ℕ → ℕ) (a : Annotation) → Consistent r temporaries a → AllRight r temporaries → MarkedCallsAreTheSame r a }
{}
