//! Laws of the greatest proofs of an image.
//!
//! `specs/` is to be read in the order of `specs/Lib.antt`: `Admitted` says which proofs count, and which
//! checks some of them prove, `Sealed` what an image sealed with its greatest proofs is, `Marks` what the
//! marks of an image change of its proofs, and `Greater` what greater proofs give to smaller ones.
#![tactic(auto)]

ghost use Rattle.rc_greatest_proofs.specs.Greater.{GivingIsProved, GreaterGive};
ghost use Rattle.rc_greatest_proofs.specs.Marks.{BareAndChecked, BareIsUnmarked, SameBefore, SameClaims, SameFit, SamePinned, SameVariables};

/// The marks of an image change nothing of its proofs but the checks that they ask: without marks
/// (`bare`) an instruction is proved where all but its check is, and with them (`checked`) where its
/// check is proved too. The facts before an instruction, pins, variables, proofs that fit and the facts
/// that these claim stay the same.
pub fn marks_ask_checks_alone()
    ensures bare { BareIsUnmarked }
    ensures checked { BareAndChecked }
    ensures before { SameBefore }
    ensures pinned { SamePinned }
    ensures variables { SameVariables }
    ensures fit { SameFit }
    ensures claims { SameClaims }
{}

/// What proofs ask at an instruction that they prove follows from the facts of all greater proofs
/// (`gives`), so that a search downward from all facts loses none of theirs; and proofs that give what
/// they ask themselves prove it (`proved`).
pub fn greater_proofs_give_more()
    ensures gives { GreaterGive }
    ensures proved { GivingIsProved }
{}
