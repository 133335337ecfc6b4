// What each text comes to, and what is known of its program.
ghost use Rattle.std.specs.Prelude.{ℕ, List, ◌⊎◌};
ghost use Rattle.rc_core.specs.Deletes.{DeletesInPlace};
ghost use Rattle.rc_core.specs.Programs.{Program};
ghost use Rattle.rc_compile.specs.Acceptance.{Accepted, Refused};
ghost use Rattle.rc_compile.specs.declared.refusal.Refusal.{Refusal};

/// Every text is a program or is refused, whatever its bytes.
pub fn a_text_is_a_program_or_refused()
    ensures { (text : List ℕ) → ((program : Program) × Accepted text program) ⊎ ((refusal : Refusal) × Refused text refusal) }
{}

/// In the program of a text only a function with `deletes` deletes, or calls one that does, and such
/// calls stand by themselves.
pub fn a_program_deletes_in_place()
    ensures { (text : List ℕ) (program : Program) → Accepted text program → DeletesInPlace program }
{}
