// Sets under other names.
ghost use Rattle.std.specs.Prelude.{◌≡◌, ◌<◌, ◌≤◌, ◌&&◌, ◌||◌, IsTrue, IfOk, length, get_or};
ghost use Rattle.std.specs.List.{All, list_any, range_with_len};
ghost use Rattle.rc_facts.specs.declared.fact.Fact.{Fact as AnyFact};
ghost use Rattle.rc_facts.specs.Facts.{holds, is_over, same_fact};
ghost use Rattle.rc_annotations.specs.Annotations.{fact_with};
ghost use Rattle.rc_boundaries.specs.Every.{every_fact, facts_with};
ghost use Rattle.rc_edges.specs.Reading.{read_by};

use rc_base::NoMemory;
use rc_facts::{Fact, FactSet};
use std::alloc::Global;

/// The numbers below one, in their order, with room for one more.
pub(crate) fn numbers(alloc: Global, count: u32) -> Result<Vec<u32>, NoMemory>
    ensures { IfOk result (λ all. all.items ≡ range_with_len 0 count) }
{
    let mut all = Vec::with_capacity(alloc, count as usize + 1)?;
    for x in 0..count {
        all.push(x)?;
    }
    Ok(all)
}

/// A fact with the variables that stand at the places which it names.
fn named(fact: Fact, names: &[u32]) -> Fact
    requires { IsTrue (is_over (length names.now) fact) }
    ensures { result ≡ fact_with (λ v. get_or names.now v 0) fact }
{
    match fact {
        Fact::In(x, y) => Fact::In(names[x as usize], names[y as usize]),
        Fact::Up(x, y) => Fact::Up(names[x as usize], names[y as usize]),
        Fact::Trad(x) => Fact::Trad(names[x as usize]),
        Fact::NonNull(x) => Fact::NonNull(names[x as usize]),
    }
}

/// Adds a fact, if a set has it under other names.
fn gather_one(found: &mut FactSet, set: &FactSet, names: &[u32], fact: Fact)
    requires over { IsTrue (is_over (length names.now) fact) }
    requires names { All (λ x. x < set.now.variables) names.now }
    requires room { length names.now ≤ found.old.variables }
    ensures variables { found.new.variables ≡ found.old.variables }
    ensures facts { (p : AnyFact) → holds found.new p ≡ (holds found.old p || (holds set.now (fact_with (λ v. get_or names.now v 0) fact) && same_fact fact p)) }
{
    if set.has(named(fact, names)) {
        found.add(fact);
    }
}

/// Adds the facts on a variable and each other that a set has under other names.
fn gather_row(found: &mut FactSet, set: &FactSet, names: &[u32], x: u32)
    requires x { x < length names.now }
    requires names { All (λ x. x < set.now.variables) names.now }
    requires few { length names.now ≤ 128 }
    requires room { length names.now ≤ found.old.variables }
    ensures variables { found.new.variables ≡ found.old.variables }
    ensures facts { (p : AnyFact) → holds found.new p ≡ (holds found.old p || list_any (λ q. holds set.now (fact_with (λ v. get_or names.now v 0) q) && same_fact q p) (facts_with x (length names.now))) }
{
    gather_one(found, set, names, Fact::Trad(x));
    gather_one(found, set, names, Fact::NonNull(x));
    for y in 0..names.len() as u32 {
        gather_one(found, set, names, Fact::In(x, y));
        gather_one(found, set, names, Fact::Up(x, y));
    }
}

/// Adds all facts that a set has under other names.
fn gather(found: &mut FactSet, set: &FactSet, names: &[u32])
    requires names { All (λ x. x < set.now.variables) names.now }
    requires few { length names.now ≤ 128 }
    requires room { length names.now ≤ found.old.variables }
    ensures variables { found.new.variables ≡ found.old.variables }
    ensures facts { (p : AnyFact) → holds found.new p ≡ (holds found.old p || list_any (λ q. holds set.now (fact_with (λ v. get_or names.now v 0) q) && same_fact q p) (every_fact (length names.now))) }
{
    for x in 0..names.len() as u32 {
        gather_row(found, set, names, x);
    }
}

/// The facts that a set has on these variables, each by its place among them, as a set over so many
/// variables. The only error is want of memory.
pub(crate) fn read(
    alloc: Global,
    set: &FactSet,
    names: &[u32],
    variables: u32,
) -> Result<FactSet, NoMemory>
    requires names { All (λ x. x < set.now.variables) names.now }
    requires room { length names.now ≤ variables }
    requires few { variables ≤ 128 }
    ensures variables { IfOk result (λ found. found.variables ≡ variables) }
    ensures facts { IfOk result (λ found. (fact : AnyFact) → holds found fact ≡ read_by names.now set.now fact) }
{
    let mut found = FactSet::empty(alloc, variables)?;
    gather(&mut found, set, names);
    Ok(found)
}
