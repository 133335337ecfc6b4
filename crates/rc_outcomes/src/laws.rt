// What holds of every request and every text.
ghost use Rattle.std.specs.Prelude.{◌≡◌, ◌≤◌, ◌↔◌, ℕ, List, length, Ok, Option, Some};
ghost use Rattle.std.specs.List.{AllByRecursion as Every};
ghost use Rattle.rc_base.specs.Limits.{most_image_bytes};
ghost use Rattle.rc_base.specs.Shelves.{Names};
ghost use Rattle.rc_base.specs.declared.ends.Limits.{Limits};
ghost use Rattle.rc_compile.specs.Acceptance.{Accepted};
ghost use Rattle.rc_core.specs.Numbers.{IsByte};
ghost use Rattle.rc_core.specs.Programs.{Program};
ghost use Rattle.rc_outcomes.specs.Bytes.{AreBytes};
ghost use Rattle.rc_linked_texts.specs.Texts.{AreProgram};
ghost use Rattle.rc_outcomes.specs.Compiled.{HasCompiled, HasLinked, RunsAs, RunsTheSame};
ghost use Rattle.rc_outcomes.specs.Footprint.{AreThere, footprint};
ghost use Rattle.rc_outcomes.specs.Images.{Carried, carried_by};
ghost use Rattle.rc_outcomes.specs.Judged.{IsJudged};
ghost use Rattle.rc_outcomes.specs.Outcome.{IsOutcome, OfText, Outcome, Runs, RunsTasks, as_left};
ghost use Rattle.rc_outcomes.specs.Sealed.{HasSealed, RunsChecked};
ghost use Rattle.rc_requests.specs.Request.{Exec, Request};
ghost use Rattle.rc_safety.specs.Safety.{NeverTouchesDeleted};
ghost use Rattle.rc_sealed_images.specs.Carrying.{Carries};
ghost use Rattle.rc_task_text.specs.TaskText.{AreChoices, task_text_of};

/// Whatever the words ask comes to one outcome where the names that it reads are there, and never to
/// two, whatever bytes the files and the input have. That the image of a file, a report on its checks and
/// what its tasks do are outcomes needs that what the file has are bytes; and choices have to be digits,
/// as they are where words ask for tasks. That the image of several files is needs besides that
/// there are few enough of them. That an image with proofs is run or refused, and that one is sealed or
/// refused, needs that the one or the other is known: of these it is said that there is never more than
/// one outcome.
pub fn a_request_has_one_outcome()
    ensures some { (request : Option Request) (files : Names) (input : List ℕ) → AreThere (footprint request) files → AreBytes request files → IsJudged request files → (outcome : Outcome) × IsOutcome request files input outcome }
    ensures one { (request : Option Request) (files : Names) (input : List ℕ) (one other : Outcome) → IsOutcome request files input one → IsOutcome request files input other → one ≡ other }
{}

/// No run of a text that is accepted ever touches a deleted region, whatever its input and its limits.
pub fn an_accepted_text_never_touches_deleted()
    ensures { (text : List ℕ) (program : Program) (input : List ℕ) (limits : Limits) → Accepted text program → NeverTouchesDeleted program input limits }
{}

/// Bytes carry an image, by itself or with proofs, exactly where they are a spelling of it: without proofs
/// in one of the two versions of the format, with proofs in the one that has them. The image keeps the
/// rules of its fields, and proofs fit it.
pub fn an_image_is_what_its_bytes_carry()
    ensures read { (bytes : List ℕ) (carried : Carried) → Every IsByte bytes → carried_by bytes ≡ Ok carried → Carries bytes carried.image carried.proofs }
    ensures carried { (bytes : List ℕ) (carried : Carried) → length bytes ≤ most_image_bytes → Carries bytes carried.image carried.proofs → carried_by bytes ≡ Ok carried }
{}

/// What comes of an image with proofs is what comes of it with every check made, or its refusal, and never
/// that a deleted region was touched; on every input and within all limits.
pub fn a_sealed_image_runs_as_with_every_check()
    ensures { (files : Names) (file : List ℕ) → (has : HasSealed files file) → (limits : Limits) (input : List ℕ) (outcome : Outcome) → IsOutcome (Some (Exec file limits)) files input outcome → RunsChecked has.image limits input outcome }
{}

/// What was stored of a text runs as the text does: on every input of bytes and within all limits
/// executing the image comes to just what running the text comes to. It is asked that it is no longer
/// than an image may be.
pub fn a_stored_image_runs_as_its_text()
    ensures { (files : Names) (from to : List ℕ) → HasCompiled files from to → RunsTheSame files from to }
{}

/// What was stored of several texts does what their program means: on every input of bytes and within all
/// limits executing the image comes to just that. It is asked that it is no longer than an image may be.
pub fn a_linked_image_runs_as_its_program()
    ensures { (files : Names) (to : List ℕ) → (has : HasLinked files to) → RunsAs files to has.program }
{}

/// No run of the program that several texts are together ever touches a deleted region, whatever its input
/// and its limits.
pub fn a_linked_program_never_touches_deleted()
    ensures { (texts : List (List ℕ)) (program : Program) (input : List ℕ) (limits : Limits) → AreProgram texts program → NeverTouchesDeleted program input limits }
{}

/// The tasks of a text do just what its program does, where the lines stand behind it that run them: a
/// request for them comes to what a run of that longer text comes to, or to its refusal.
pub fn tasks_do_what_their_text_does()
    ensures { (text choices input : List ℕ) (limits : Limits) → Every IsByte text → AreChoices choices → (outcome : Outcome) → OfText (RunsTasks limits choices (task_text_of text choices) input) (task_text_of text choices) outcome ↔ OfText (Runs as_left limits input) (task_text_of text choices) outcome }
{}
