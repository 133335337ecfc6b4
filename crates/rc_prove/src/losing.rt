// A set of a list loses facts.
ghost use Rattle.std.specs.Prelude.{◌≡◌, ◌<◌, ◌&&◌, ℕ, IsTrue, MatchBool, length, get_or};
ghost use Rattle.rc_facts.specs.declared.fact.Fact.{Fact};
ghost use Rattle.rc_facts.specs.Facts.{holds};
ghost use Rattle.rc_facts.specs.Flow.{facts_in, no_set, set_at};
ghost use Rattle.rc_edges.specs.Reading.{Loses};
ghost use Rattle.rc_target_sets.specs.Shut.{IsShut};

use rc_facts::FactSet;
use rc_target_sets::TargetSet;

/// Keeps of the facts of a set in a list those of another.
fn meet_at(sets: &mut [FactSet], at: usize, other: &FactSet) -> bool
    requires at { at < length sets.old }
    requires variables { other.now.variables ≡ (get_or sets.old at no_set).variables }
    ensures long { length sets.new ≡ length sets.old }
    ensures variables { (get_or sets.new at no_set).variables ≡ (get_or sets.old at no_set).variables }
    ensures others { (p : ℕ) → (p ≡ at → ⊥) → get_or sets.new p no_set ≡ get_or sets.old p no_set }
    ensures there { (fact : Fact) → set_at sets.new at fact ≡ (set_at sets.old at fact && holds other.now fact) }
    ensures fewer { MatchBool result (facts_in sets.new < facts_in sets.old) (sets.new ≡ sets.old) }
{
    sets[at].meet(other)
}

/// Keeps of the facts of the set at a place those of another, and says whether one was lost.
pub(crate) fn lose(sets: &mut [FactSet], at: usize, other: &FactSet) -> bool
    requires at { at < length sets.old }
    requires variables { other.now.variables ≡ (get_or sets.old at no_set).variables }
    ensures { Loses result sets.old sets.new (λ p fact. p ≡ at → IsTrue (holds other.now fact)) }
{
    meet_at(sets, at, other)
}

/// Keeps of the facts of the set of a target in a list those of another.
fn meet_target(sets: &mut [TargetSet], at: usize, other: &FactSet) -> bool
    requires at { at < length sets.old }
    requires variables { other.now.variables ≡ (get_or sets.old at no_set).variables }
    requires shut { IsShut other.now }
    ensures long { length sets.new ≡ length sets.old }
    ensures variables { (get_or sets.new at no_set).variables ≡ (get_or sets.old at no_set).variables }
    ensures others { (p : ℕ) → (p ≡ at → ⊥) → get_or sets.new p no_set ≡ get_or sets.old p no_set }
    ensures there { (fact : Fact) → set_at sets.new at fact ≡ (set_at sets.old at fact && holds other.now fact) }
    ensures fewer { MatchBool result (facts_in sets.new < facts_in sets.old) (sets.new ≡ sets.old) }
{
    sets[at].meet(other)
}

/// Keeps of the facts of the set of a target those of another, and says whether one was lost.
pub(crate) fn lose_target(sets: &mut [TargetSet], at: usize, other: &FactSet) -> bool
    requires at { at < length sets.old }
    requires variables { other.now.variables ≡ (get_or sets.old at no_set).variables }
    requires shut { IsShut other.now }
    ensures { Loses result sets.old sets.new (λ p fact. p ≡ at → IsTrue (holds other.now fact)) }
{
    meet_target(sets, at, other)
}
