// Returns.
ghost use Rattle.std.specs.Prelude.{◌≡◌, ◌<◌, ◌≤◌, ◌++◌, ◌∷◌, ◌||◌, [], suc, get_or, Some, IfSome, IsTrue, ◌↔◌, length, IfOk};
ghost use Rattle.std.specs.List.{range_with_len};
ghost use Rattle.rc_facts.specs.declared.fact.Fact.{Fact as AnyFact};
ghost use Rattle.rc_facts.specs.Facts.{holds};
ghost use Rattle.rc_facts.specs.Derivable.{Derivable};
ghost use Rattle.rc_facts.specs.Flow.{no_set};
ghost use Rattle.rc_graph.specs.Nodes.{node_of};
ghost use Rattle.rc_edges.specs.Reading.{Loses};
ghost use Rattle.rc_edges.specs.Boundaries.{NodeReturns, ReturnGives, ReturnReady, given_facts};

use crate::losing::lose;
use crate::reading::{numbers, read};
use rc_base::NoMemory;
use rc_facts::{Fact, FactSet};
use rc_graph::Node;
use std::alloc::Global;

/// The exit of a function: its number, how many hidden copies it has, and the number of its result,
/// which is free at points.
#[derive(Clone, Copy)]
pub struct Exit {
    pub function: usize,
    pub copies: u32,
    pub result: u32,
}

/// The variables that an exit speaks of: the hidden copies, and the result.
fn exit_names(alloc: Global, exit: Exit) -> Result<Vec<u32>, NoMemory>
    ensures { IfOk result (λ all. all.items ≡ range_with_len 0 exit.copies ++ exit.result ∷ []) }
{
    let mut all = numbers(alloc, exit.copies)?;
    all.push(exit.result)?;
    Ok(all)
}

/// Puts the result into both regions with a variable, and adds all that follows.
fn tie(known: &mut FactSet, x: u32, spare: u32)
    requires variables { known.old.variables ≡ suc spare }
    requires given { x ≤ spare }
    ensures variables { known.new.variables ≡ suc spare }
    ensures facts { (fact : AnyFact) → IsTrue (holds known.new fact) ↔ Derivable (suc spare) (λ q. holds known.old q || given_facts spare (Some x) q) fact }
{
    known.add(Fact::In(spare, x));
    known.add(Fact::In(x, spare));
    known.close();
}

/// Puts the result into both regions with what is returned, and adds all that follows.
fn settle(known: &mut FactSet, given: Option<u32>, spare: u32)
    requires variables { known.old.variables ≡ suc spare }
    requires given { IfSome given (λ x. x ≤ spare) }
    ensures variables { known.new.variables ≡ suc spare }
    ensures facts { (fact : AnyFact) → IsTrue (holds known.new fact) ↔ Derivable (suc spare) (λ q. holds known.old q || given_facts spare given q) fact }
{
    match given {
        None => known.close(),
        Some(x) => tie(known, x, spare),
    }
}

/// Keeps at an exit what a return gives.
fn give(
    alloc: Global,
    given: Option<u32>,
    known: &FactSet,
    exit: Exit,
    exits: &mut [FactSet],
) -> Result<bool, NoMemory>
    requires known { known.now.variables ≡ suc exit.result }
    requires given { IfSome given (λ x. x ≤ exit.result) }
    requires few { exit.result < 128 }
    requires hidden { exit.copies ≤ exit.result }
    requires there { exit.function < length exits.old }
    requires places { (get_or exits.old exit.function no_set).variables ≡ suc exit.copies }
    ensures { IfOk result (λ lost. Loses lost exits.old exits.new (λ p fact. p ≡ exit.function → ReturnGives known.now exit.copies exit.result given fact)) }
{
    let own = exit_names(alloc, exit)?;
    let mut work = FactSet::empty(alloc, exit.result + 1)?;
    work.copy(known);
    settle(&mut work, given, exit.result);
    let found = read(alloc, &work, own.as_slice(), exit.copies + 1)?;
    Ok(lose(exits, exit.function, &found))
}

/// Keeps at an exit what a point gives, where it is a return, from what is known before it. Says whether a
/// fact was lost. The only error is want of memory.
pub fn leave_at(
    alloc: Global,
    node: &Node,
    known: &FactSet,
    exit: Exit,
    exits: &mut [FactSet],
) -> Result<bool, NoMemory>
    requires known { known.now.variables ≡ suc exit.result }
    requires ready { ReturnReady (node_of node.now) exit.result }
    requires few { exit.result < 128 }
    requires hidden { exit.copies ≤ exit.result }
    requires there { exit.function < length exits.old }
    requires places { (get_or exits.old exit.function no_set).variables ≡ suc exit.copies }
    ensures { IfOk result (λ lost. Loses lost exits.old exits.new (λ p fact. p ≡ exit.function → NodeReturns (node_of node.now) known.now exit.copies exit.result fact)) }
{
    match node {
        Node::Go { .. } => Ok(false),
        Node::Fork { .. } => Ok(false),
        Node::Return { given: variable } => give(alloc, *variable, known, exit, exits),
    }
}
