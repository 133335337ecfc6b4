// Calls.
ghost use Rattle.std.specs.Prelude.{ℕ, Option, IfOk};
ghost use Rattle.rc_rlang.specs.RegionFlow.{called};
ghost use Rattle.rc_graph.specs.Nodes.{effect_of, node_of};
ghost use Rattle.rc_edges.specs.Reading.{Loses};
ghost use Rattle.rc_edges.specs.Boundaries.{CallGives, CallReady, Callable, NodeGives, NodeReady};

use crate::losing::lose;
use crate::reading::read;
use rc_base::NoMemory;
use rc_facts::FactSet;
use rc_graph::{Effect, Node};
use std::alloc::Global;

/// Keeps at the entry of a function what a call of it gives.
fn give_call(
    alloc: Global,
    function: u32,
    arguments: &[u32],
    known: &FactSet,
    entries: &mut [FactSet],
) -> Result<bool, NoMemory>
    requires { Callable function arguments.now known.now.variables entries.old }
    ensures { (x : Option ℕ) → IfOk result (λ lost. Loses lost entries.old entries.new (CallGives (called x function arguments.now) known.now)) }
{
    let count = u32::try_from(arguments.len()).map_err(|_| NoMemory)?;
    let found = read(alloc, known, arguments, count)?;
    Ok(lose(entries, function as usize, &found))
}

/// Keeps at an entry what an effect gives, where it is a call.
fn give(
    alloc: Global,
    effect: &Effect,
    known: &FactSet,
    entries: &mut [FactSet],
) -> Result<bool, NoMemory>
    requires { CallReady (effect_of effect.now) known.now.variables entries.old }
    ensures { IfOk result (λ lost. Loses lost entries.old entries.new (CallGives (effect_of effect.now) known.now)) }
{
    match effect {
        Effect::Called {
            result: _,
            function,
            arguments,
        } => give_call(alloc, *function, arguments.as_slice(), known, entries),
        _ => Ok(false),
    }
}

/// Keeps at entries what the calls at a point give, from what is known before it. Says whether a fact was
/// lost. The only error is want of memory.
pub fn call_at(
    alloc: Global,
    node: &Node,
    known: &FactSet,
    entries: &mut [FactSet],
) -> Result<bool, NoMemory>
    requires { NodeReady (node_of node.now) known.now.variables entries.old }
    ensures { IfOk result (λ lost. Loses lost entries.old entries.new (NodeGives (node_of node.now) known.now)) }
{
    match node {
        Node::Go { effect, .. } => give(alloc, effect, known, entries),
        Node::Fork { left, right, .. } => {
            let first = give(alloc, left, known, entries)?;
            let second = give(alloc, right, known, entries)?;
            Ok(first || second)
        }
        Node::Return { .. } => Ok(false),
    }
}
