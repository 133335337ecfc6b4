// What holds of texts, whatever they are.
ghost use Rattle.std.specs.Prelude.{ℕ, List, ◌≡◌};
ghost use Rattle.rc_core.specs.Programs.{Program};
ghost use Rattle.rc_compile.specs.Acceptance.{Accepted, Refused};
ghost use Rattle.rc_compile.specs.declared.refusal.Refusal.{Refusal};

/// A text is at most one program, is refused for at most one reason, and is never both.
pub fn a_text_has_one_answer()
    ensures program { (text : List ℕ) (one other : Program) → Accepted text one → Accepted text other → one ≡ other }
    ensures refusal { (text : List ℕ) (one other : Refusal) → Refused text one → Refused text other → one ≡ other }
    ensures not_both { (text : List ℕ) (program : Program) (refusal : Refusal) → Accepted text program → Refused text refusal → ⊥ }
{}
