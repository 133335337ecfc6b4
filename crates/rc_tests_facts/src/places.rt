// The facts of all functions, asked by their places.
ghost use Rattle.std.specs.Prelude.{◌≡◌, IfOk, IsTrue};
ghost use Rattle.rc_facts.specs.Facts.{is_over};

use rc_base::NoMemory;
use rc_edges::Facts;
use rc_facts::{Fact, FactSet};
use std::alloc::Global;
use std::test::Fail;

/// One fact over two variables.
fn only(alloc: Global, fact: Fact) -> Result<FactSet, NoMemory>
    requires { IsTrue (is_over 2 fact) }
    ensures { IfOk result (λ set. set.variables ≡ 2) }
{
    let mut set = FactSet::empty(alloc, 2)?;
    set.add(fact);
    Ok(set)
}

/// Of two functions, whether the facts of each entry are those that stand there, and no others.
fn finds_entries(alloc: Global) -> Result<bool, NoMemory> {
    let first = only(alloc, Fact::NonNull(0))?;
    let second = only(alloc, Fact::In(0, 1))?;
    let facts = Facts {
        graphs: Vec::new(alloc),
        points: Vec::new(alloc),
        entries: Vec::from_array(alloc, [first, second])?,
        exits: Vec::new(alloc),
    };
    let first = facts.entry(0);
    let second = facts.entry(1);
    Ok(
        first.has(Fact::NonNull(0))
            && !first.has(Fact::In(0, 1))
            && second.has(Fact::In(0, 1))
            && !second.has(Fact::NonNull(0)),
    )
}

/// The same of their exits.
fn finds_exits(alloc: Global) -> Result<bool, NoMemory> {
    let first = only(alloc, Fact::Trad(1))?;
    let second = only(alloc, Fact::Up(1, 0))?;
    let facts = Facts {
        graphs: Vec::new(alloc),
        points: Vec::new(alloc),
        entries: Vec::new(alloc),
        exits: Vec::from_array(alloc, [first, second])?,
    };
    let first = facts.exit(0);
    let second = facts.exit(1);
    Ok(
        first.has(Fact::Trad(1))
            && !first.has(Fact::Up(1, 0))
            && second.has(Fact::Up(1, 0))
            && !second.has(Fact::Trad(1)),
    )
}

#[test]
fn an_entry_is_that_of_its_function(rt: HostRuntime) -> Result<(), Fail> {
    assert!(rt; finds_entries(rt.alloc()) == Ok(true));
    Ok(())
}

#[test]
fn an_exit_is_that_of_its_function(rt: HostRuntime) -> Result<(), Fail> {
    assert!(rt; finds_exits(rt.alloc()) == Ok(true));
    Ok(())
}
