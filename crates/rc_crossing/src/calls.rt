// What a call makes of a closed set, of which no fact names the scratch variable.
ghost use Rattle.std.specs.Prelude.{◌≡◌, ◌<◌, ◌≤◌, ◌↔◌, ◌++◌, ◌||◌, false, IsTrue, IfSome, OnOk, IfOk, List, Some, None, length, option_map, suc};
ghost use Rattle.std.specs.List.{All, list_any};
ghost use Rattle.rc_facts.specs.declared.fact.Fact.{Fact as AnyFact};
ghost use Rattle.rc_facts.specs.Derivable.{Derivable};
ghost use Rattle.rc_facts.specs.Facts.{holds, is_over, names, same_fact};
ghost use Rattle.rc_facts.specs.Null.{null_news};
ghost use Rattle.rc_facts.specs.Shut.{together, IsBehind};
ghost use Rattle.rc_facts.specs.Flow.{Behind, IsClosed};
ghost use Rattle.rc_edges.specs.Edges.{all_below};
ghost use Rattle.rc_edges.specs.News.{fact_if, row_news, rows_news, places_of};
ghost use Rattle.rc_crossing.specs.Fitting.{lacks};

use rc_base::NoMemory;
use rc_facts::{Fact, FactSet};
use std::alloc::Global;

/// Adds facts.
pub fn fill(set: &mut FactSet, facts: &[Fact])
    requires over { All (λ p. IsTrue (is_over set.old.variables p)) facts.now }
    ensures variables { set.new.variables ≡ set.old.variables }
    ensures facts { (fact : AnyFact) → holds set.new fact ≡ (holds set.old fact || list_any (λ q. same_fact q fact) facts.now) }
{
    for fact in facts {
        set.add(*fact);
    }
}

/// Whether the set lacks one of the facts.
pub fn lacks(set: &FactSet, facts: &[Fact]) -> bool
    requires { All (λ p. IsTrue (is_over set.now.variables p)) facts.now }
    ensures { result ≡ lacks (holds set.now) facts.now }
{
    for fact in facts {
        if !set.has(*fact) {
            return true;
        }
    }
    false
}

/// Puts a fact behind the others, if so.
fn push_if(out: &mut Vec<Fact>, so: bool, fact: Fact) -> Result<(), NoMemory>
    ensures { (rest : List AnyFact) → OnOk result (out.new.items ++ rest ≡ out.old.items ++ fact_if so fact rest) }
{
    if so {
        out.push(fact)?;
    }
    Ok(())
}

/// What an exit says of one place, where a variable is, and of each place.
fn push_row(
    out: &mut Vec<Fact>,
    exit: &FactSet,
    place: u32,
    variable: u32,
    places: &[u32],
) -> Result<(), NoMemory>
    requires place { place < exit.now.variables }
    requires places { length places.now ≤ exit.now.variables }
    ensures { OnOk result (out.new.items ≡ out.old.items ++ row_news (holds exit.now) place variable places.now 0) }
{
    let mut at = 0u32;
    for other in places {
        push_if(
            out,
            exit.has(Fact::In(place, at)),
            Fact::In(variable, *other),
        )?;
        push_if(
            out,
            exit.has(Fact::Up(place, at)),
            Fact::Up(variable, *other),
        )?;
        at = at.checked_add(1).ok_or(NoMemory)?;
    }
    Ok(())
}

/// What an exit says of these places.
fn learned(alloc: Global, exit: &FactSet, places: &[u32]) -> Result<Vec<Fact>, NoMemory>
    requires { length places.now ≤ exit.now.variables }
    ensures { IfOk result (λ news. news.items ≡ rows_news (holds exit.now) places.now places.now 0) }
{
    let mut out = Vec::new(alloc);
    let mut at = 0u32;
    for variable in places {
        push_if(&mut out, exit.has(Fact::Trad(at)), Fact::Trad(*variable))?;
        push_if(
            &mut out,
            exit.has(Fact::NonNull(at)),
            Fact::NonNull(*variable),
        )?;
        push_row(&mut out, exit, at, *variable, places)?;
        at = at.checked_add(1).ok_or(NoMemory)?;
    }
    Ok(out)
}

/// The spare variable, where one is assigned.
fn fresh(assigned: Option<u32>, spare: u32) -> Option<u32>
    ensures { result ≡ option_map (λ _. spare) assigned }
{
    match assigned {
        None => None,
        Some(_) => Some(spare),
    }
}

/// The variables of a call: its arguments, and the one that gets its result.
fn places(alloc: Global, arguments: &[u32], assigned: Option<u32>) -> Result<Vec<u32>, NoMemory>
    ensures { IfOk result (λ all. all.items ≡ places_of arguments.now assigned) }
{
    let mut all = arguments.to_vec(alloc)?;
    if let Some(variable) = assigned {
        all.push(variable)?;
    }
    Ok(all)
}

/// Adds facts, and all that is derivable then.
fn derive(set: &mut FactSet, news: &[Fact])
    requires { All (λ p. IsTrue (is_over set.old.variables p)) news.now }
    ensures variables { set.new.variables ≡ set.old.variables }
    ensures facts { (fact : AnyFact) → IsTrue (holds set.new fact) ↔ Derivable set.old.variables (together (holds set.old) news.now) fact }
{
    fill(set, news);
    set.close();
}

/// Adds facts, and all that is derivable then, save on the scratch variable. A set that has them already
/// isn't closed again.
fn settle(set: &mut FactSet, news: &[Fact], scratch: u32)
    requires over { All (λ p. IsTrue (is_over set.old.variables p)) news.now }
    requires closed { IsClosed set.old.variables scratch (holds set.old) }
    ensures variables { set.new.variables ≡ set.old.variables }
    ensures facts { (fact : AnyFact) → names scratch fact ≡ false → IsTrue (holds set.new fact) ↔ Derivable set.old.variables (together (holds set.old) news.now) fact }
{
    if !lacks(set, news) {
        return;
    }
    derive(set, news);
}

/// What stands behind an effect that assigns no variable.
fn learn(set: &mut FactSet, news: &[Fact], scratch: u32)
    requires over { All (λ p. IsTrue (is_over set.old.variables p)) news.now }
    requires scratch { scratch < set.old.variables }
    requires closed { IsClosed set.old.variables scratch (holds set.old) }
    ensures variables { set.new.variables ≡ set.old.variables }
    ensures facts { (fact : AnyFact) → IsTrue (holds set.new fact) ↔ Behind set.old.variables scratch None news.now (holds set.old) fact }
{
    settle(set, news, scratch);
    set.forget(scratch);
}

/// The facts of a variable that is null, over so many variables.
fn null(alloc: Global, variables: u32, variable: u32) -> Result<Vec<Fact>, NoMemory>
    ensures { IfOk result (λ news. news.items ≡ null_news variables variable) }
{
    let mut all = Vec::new(alloc);
    all.push(Fact::Trad(variable))?;
    for other in (0..variables).rev() {
        all.push(Fact::In(variable, other))?;
    }
    Ok(all)
}

/// What stands where a variable is null.
pub(crate) fn learn_null(
    alloc: Global,
    set: &mut FactSet,
    y: u32,
    scratch: u32,
) -> Result<(), NoMemory>
    requires y { y < scratch }
    requires scratch { suc scratch ≡ set.old.variables }
    requires closed { IsClosed set.old.variables scratch (holds set.old) }
    ensures variables { set.new.variables ≡ set.old.variables }
    ensures facts { OnOk result ((fact : AnyFact) → IsTrue (holds set.new fact) ↔ IsBehind set.old.variables scratch (holds set.old) (null_news set.old.variables y) fact) }
{
    if !set.has(Fact::NonNull(y)) {
        set.add_null(y, scratch);
        return Ok(());
    }
    let news = null(alloc, set.count(), y)?;
    learn(set, news.as_slice(), scratch);
    Ok(())
}

/// What stands behind a call whose result a variable gets.
fn assign(set: &mut FactSet, x: u32, news: &[Fact], scratch: u32)
    requires over { All (λ p. IsTrue (is_over set.old.variables p)) news.now }
    requires scratch { scratch < set.old.variables }
    requires x { x < scratch }
    requires closed { IsClosed set.old.variables scratch (holds set.old) }
    ensures variables { set.new.variables ≡ set.old.variables }
    ensures facts { (fact : AnyFact) → IsTrue (holds set.new fact) ↔ Behind set.old.variables scratch (Some x) news.now (holds set.old) fact }
{
    if news.is_empty() {
        set.assign_unknown(x, scratch);
        return;
    }
    derive(set, news);
    set.rename(scratch, x);
}

/// What stands behind a call of a function with this exit.
pub(crate) fn call(
    alloc: Global,
    set: &mut FactSet,
    exit: &FactSet,
    arguments: &[u32],
    assigned: Option<u32>,
    scratch: u32,
) -> Result<(), NoMemory>
    requires places { length (places_of arguments.now assigned) ≤ exit.now.variables }
    requires arguments { all_below scratch arguments.now }
    requires assigned { IfSome assigned (λ x. x < scratch) }
    requires scratch { suc scratch ≡ set.old.variables }
    requires closed { IsClosed set.old.variables scratch (holds set.old) }
    ensures variables { set.new.variables ≡ set.old.variables }
    ensures facts { OnOk result ((fact : AnyFact) → IsTrue (holds set.new fact) ↔ Behind set.old.variables scratch assigned (rows_news (holds exit.now) (places_of arguments.now (option_map (λ _. scratch) assigned)) (places_of arguments.now (option_map (λ _. scratch) assigned)) 0) (holds set.old) fact) }
{
    let all = places(alloc, arguments, fresh(assigned, scratch))?;
    let news = learned(alloc, exit, all.as_slice())?;
    match assigned {
        None => learn(set, news.as_slice(), scratch),
        Some(x) => assign(set, x, news.as_slice(), scratch),
    }
    Ok(())
}
