// Programs whose meaning computes.
ghost use Rattle.rc_core.specs.Cases.{Cases};
ghost use Rattle.rc_core.specs.Examples.{Examples};

/// The definitions give small programs the ends, and the bytes, that they should have: first
/// whole programs, then a few for each rule of the language.
#[tactic(auto, using(crate::proofs::Computed::examples, crate::proofs::Computed::cases))]
pub fn examples_compute()
    ensures programs { Examples }
    ensures rules { Cases }
{}
