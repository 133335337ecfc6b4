// A set of a list loses facts.
ghost use Rattle.std.specs.Prelude.{◌≡◌, ◌<◌, ◌&&◌, ℕ, IsTrue, MatchBool, length, get_or};
ghost use Rattle.rc_facts.specs.declared.fact.Fact.{Fact};
ghost use Rattle.rc_facts.specs.Facts.{holds};
ghost use Rattle.rc_facts.specs.Flow.{facts_in, no_set, set_at};
ghost use Rattle.rc_edges.specs.Reading.{Loses};

use rc_facts::FactSet;

/// Keeps of the facts of a set in a list those of another.
fn meet_at(sets: &mut [FactSet], at: usize, other: &FactSet) -> bool
    requires at { at < length sets.old }
    requires variables { other.now.variables ≡ (get_or sets.old at no_set).variables }
    ensures long { length sets.new ≡ length sets.old }
    ensures variables { (get_or sets.new at no_set).variables ≡ (get_or sets.old at no_set).variables }
    ensures others { (p : ℕ) → (p ≡ at → ⊥) → get_or sets.new p no_set ≡ get_or sets.old p no_set }
    ensures there { (fact : Fact) → set_at sets.new at fact ≡ (set_at sets.old at fact && holds other.now fact) }
    ensures fewer { MatchBool result (facts_in sets.new < facts_in sets.old) (sets.new ≡ sets.old) }
{
    sets[at].meet(other)
}

/// Keeps of the facts of the set at a place those of another, and says whether one was lost.
pub fn lose(sets: &mut [FactSet], at: usize, other: &FactSet) -> bool
    requires at { at < length sets.old }
    requires variables { other.now.variables ≡ (get_or sets.old at no_set).variables }
    ensures { Loses result sets.old sets.new (λ p fact. p ≡ at → IsTrue (holds other.now fact)) }
{
    meet_at(sets, at, other)
}
