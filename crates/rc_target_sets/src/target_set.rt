// Sets of facts before targets.
ghost use Rattle.std.specs.Prelude.{◌≡◌, ◌<◌, ◌||◌, ◌&&◌, ◌↔◌, IsTrue, MatchBool, length};
ghost use Rattle.rc_facts.specs.declared.fact.Fact.{Fact as AnyFact};
ghost use Rattle.rc_facts.specs.declared.fact.Fact.TheVariants.{In, Up};
ghost use Rattle.rc_facts.specs.Derivable.{Derivable};
ghost use Rattle.rc_facts.specs.Facts.{Drops, holds, same_fact};
ghost use Rattle.rc_target_sets.specs.Shut.{HasMore, IsShut};

use rc_facts::{Fact, FactSet};
use std::marker::Model;

/// A set of facts that has all that is derivable from them, but for what each variable is to itself: that
/// it is in its own region, and above itself.
#[derive(Drop)]
pub struct TargetSet {
    facts: FactSet,
}

impl Model for TargetSet {
    ghost use Rattle.rc_facts.specs.Facts.{Known};
    ghost use Rattle.rc_target_sets.specs.Shut.{IsShut};

    ghost Value = { Known };

    ghost view = { λ s. s.facts };

    ghost invariant = { λ s. IsShut s.facts };
}

/// Adds that a variable is in its own region, and above itself.
fn add_own(set: &mut FactSet, x: u32)
    requires { x < set.old.variables }
    ensures variables { set.new.variables ≡ set.old.variables }
    ensures facts { (fact : AnyFact) → holds set.new fact ≡ ((holds set.old fact || same_fact (In x x) fact) || same_fact (Up x x) fact) }
{
    set.add(Fact::In(x, x));
    set.add(Fact::Up(x, x));
}

/// Adds that each variable is in its own region, and above itself.
fn add_all_own(set: &mut FactSet)
    ensures { HasMore set.old.variables set.old set.new }
{
    for x in 0..set.count() {
        add_own(set, x);
    }
}

impl TargetSet {
    /// The facts as such a set.
    pub fn new(facts: FactSet) -> TargetSet
        requires { IsShut facts }
        ensures { result ≡ facts }
    {
        TargetSet { facts }
    }

    /// The facts.
    pub fn into_facts(self) -> FactSet
        ensures { result ≡ self }
    {
        self.facts
    }

    /// Keeps the facts that the other set has too, and says whether one was dropped.
    pub fn meet(&mut self, other: &FactSet) -> bool
        requires variables { other.now.variables ≡ self.old.variables }
        requires shut { IsShut other.now }
        ensures variables { self.new.variables ≡ self.old.variables }
        ensures facts { (fact : AnyFact) → holds self.new fact ≡ (holds self.old fact && holds other.now fact) }
        ensures dropped { MatchBool result (Drops self.old self.new) (self.new ≡ self.old) }
        ensures fewer { IsTrue result → length self.new.facts < length self.old.facts }
    {
        self.facts.meet(other)
    }

    /// Puts what follows from the facts in place of those of another set.
    pub fn give(&self, set: &mut FactSet)
        requires { set.old.variables ≡ self.now.variables }
        ensures variables { set.new.variables ≡ set.old.variables }
        ensures facts { (fact : AnyFact) → IsTrue (holds set.new fact) ↔ Derivable set.old.variables (holds self.now) fact }
    {
        set.copy(&self.facts);
        add_all_own(set);
    }
}
