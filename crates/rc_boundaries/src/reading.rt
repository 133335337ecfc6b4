// Sets under other names.
ghost use Rattle.std.specs.Prelude.{◌≡◌, ◌<◌, ◌≤◌, ◌++◌, ◌&&◌, ◌||◌, IsTrue, IfOk, OnOk, length, get_or};
ghost use Rattle.std.specs.List.{All, list_any, range_with_len};
ghost use Rattle.rc_facts.specs.declared.fact.Fact.{Fact as AnyFact};
ghost use Rattle.rc_facts.specs.Facts.{holds, is_over, same_fact};
ghost use Rattle.rc_annotations.specs.Annotations.{fact_with};
ghost use Rattle.rc_boundaries.specs.Every.{every_fact, facts_with};
ghost use Rattle.rc_edges.specs.Reading.{read_by};

use rc_base::NoMemory;
use rc_facts::{Fact, FactSet};
use std::alloc::Global;

/// The numbers below one, in their order.
pub fn numbers(alloc: Global, count: u32) -> Result<Vec<u32>, NoMemory>
    ensures { IfOk result (λ all. all.items ≡ range_with_len 0 count) }
{
    let mut all = Vec::new(alloc);
    for x in 0..count {
        all.push(x)?;
    }
    Ok(all)
}

/// Adds the facts on a variable and each below a number.
fn add_row(all: &mut Vec<Fact>, x: u32, count: u32) -> Result<(), NoMemory>
    ensures { OnOk result (all.new.items ≡ all.old.items ++ facts_with x count) }
{
    all.push(Fact::Trad(x))?;
    all.push(Fact::NonNull(x))?;
    for y in 0..count {
        all.push(Fact::In(x, y))?;
        all.push(Fact::Up(x, y))?;
    }
    Ok(())
}

/// All facts on variables below a number.
fn every(alloc: Global, count: u32) -> Result<Vec<Fact>, NoMemory>
    ensures { IfOk result (λ all. all.items ≡ every_fact count) }
{
    let mut all = Vec::new(alloc);
    for x in 0..count {
        add_row(&mut all, x, count)?;
    }
    Ok(all)
}

/// A fact with the variables that stand at the places which it names.
fn named(fact: Fact, names: &[u32]) -> Fact
    requires { IsTrue (is_over (length names.now) fact) }
    ensures { result ≡ fact_with (λ v. get_or names.now v 0) fact }
{
    match fact {
        Fact::In(x, y) => Fact::In(names[x as usize], names[y as usize]),
        Fact::Up(x, y) => Fact::Up(names[x as usize], names[y as usize]),
        Fact::Trad(x) => Fact::Trad(names[x as usize]),
        Fact::NonNull(x) => Fact::NonNull(names[x as usize]),
    }
}

/// Adds those of some facts that a set has under other names.
fn gather(found: &mut FactSet, set: &FactSet, names: &[u32], all: &[Fact])
    requires over { All (λ p. IsTrue (is_over (length names.now) p)) all.now }
    requires own { All (λ p. IsTrue (is_over set.now.variables (fact_with (λ v. get_or names.now v 0) p))) all.now }
    requires room { length names.now ≤ found.old.variables }
    ensures variables { found.new.variables ≡ found.old.variables }
    ensures facts { (fact : AnyFact) → holds found.new fact ≡ (holds found.old fact || list_any (λ p. holds set.now (fact_with (λ v. get_or names.now v 0) p) && same_fact p fact) all.now) }
{
    for fact in all {
        if set.has(named(*fact, names)) {
            found.add(*fact);
        }
    }
}

/// The facts that a set has on these variables, each by its place among them, as a set over so many
/// variables. The only error is want of memory.
pub fn read(
    alloc: Global,
    set: &FactSet,
    names: &[u32],
    variables: u32,
) -> Result<FactSet, NoMemory>
    requires names { All (λ x. x < set.now.variables) names.now }
    requires room { length names.now ≤ variables }
    requires few { variables ≤ 128 }
    ensures variables { IfOk result (λ found. found.variables ≡ variables) }
    ensures facts { IfOk result (λ found. (fact : AnyFact) → holds found fact ≡ read_by names.now set.now fact) }
{
    let count = u32::try_from(names.len()).map_err(|_| NoMemory)?;
    let all = every(alloc, count)?;
    let mut found = FactSet::empty(alloc, variables)?;
    gather(&mut found, set, names, all.as_slice());
    Ok(found)
}
