// A walk through a function: what is known before each of its points, where it is kept at heads alone.
ghost use Rattle.std.specs.Prelude.{◌≡◌, ◌<◌, ℕ, suc, List, IfOk, OnOk, length, get_or, option_map, replicate, true, false};
ghost use Rattle.rc_facts.specs.Facts.{Known, holds};
ghost use Rattle.rc_facts.specs.Flow.{set_at};
ghost use Rattle.rc_graph.specs.Nodes.{effect_of, node_of, nodes_of};
ghost use Rattle.rc_elim.specs.Asking.{bits_of};
ghost use Rattle.rc_elim.specs.Walking.{AreAll, Walkable, effect_to};

use crate::asking::{ask_anything, is_proven};
use rc_base::NoMemory;
use rc_crossing::cross;
use rc_facts::FactSet;
use rc_graph::{Effect, Graph, Node};
use std::alloc::Global;

/// What is walked through: a function's graph, and the facts of the exits of all functions.
#[derive(Clone, Copy)]
pub(crate) struct Way<'a> {
    pub(crate) alloc: Global,
    pub(crate) graph: &'a Graph,
    pub(crate) exits: &'a [FactSet],
}

/// The effect of the first edge of a node that leads to a point.
fn effect_to(node: &Node, to: u32) -> Option<&Effect>
    ensures { option_map (λ effect. effect_of effect.now) result ≡ effect_to (node_of node.now).edges to }
{
    match node {
        Node::Go { effect, to: next } => { if *next == to { Some(effect) } else { None } }
        Node::Fork {
            left,
            to_left,
            right,
            to_right,
        } => {
            if *to_left == to {
                Some(left)
            } else if *to_right == to {
                Some(right)
            } else {
                None
            }
        }
        Node::Return { .. } => None,
    }
}

/// Takes the facts of a head, where one is there.
fn begin(way: &Way<'_>, sets: &[FactSet], work: &mut FactSet, at: usize)
    requires walkable { Walkable way.now.graph.now way.now.exits.now sets.now }
    requires there { at < length way.now.graph.now.nodes.items }
    requires variables { work.old.variables ≡ suc way.now.graph.now.result }
    requires here { (all : List Known) → AreAll way.now.graph.now way.now.exits.now sets.now all → get_or way.now.graph.now.heads.items at true ≡ false → holds work.old ≡ set_at all at }
    ensures variables { work.new.variables ≡ suc way.now.graph.now.result }
    ensures here { (all : List Known) → AreAll way.now.graph.now way.now.exits.now sets.now all → holds work.new ≡ set_at all at }
{
    if way.graph.heads[at] {
        work.copy(&sets[at]);
    }
}

/// Leads a set over the edge from a point to the next one, where that is no head.
fn go_on(way: &Way<'_>, _sets: &[FactSet], work: &mut FactSet, at: usize) -> Result<(), NoMemory>
    requires walkable { Walkable way.now.graph.now way.now.exits.now _sets.now }
    requires there { at < length way.now.graph.now.nodes.items }
    requires variables { work.old.variables ≡ suc way.now.graph.now.result }
    requires here { (all : List Known) → AreAll way.now.graph.now way.now.exits.now _sets.now all → holds work.old ≡ set_at all at }
    ensures variables { work.new.variables ≡ suc way.now.graph.now.result }
    ensures next { OnOk result ((all : List Known) → AreAll way.now.graph.now way.now.exits.now _sets.now all → get_or way.now.graph.now.heads.items (suc at) true ≡ false → holds work.new ≡ set_at all (suc at)) }
{
    if way.graph.heads[at + 1] {
        return Ok(());
    }
    let next = u32::try_from(at + 1).map_err(|_| NoMemory)?;
    let Some(effect) = effect_to(&way.graph.nodes[at], next) else {
        return Ok(());
    };
    cross(way.alloc, work, effect, way.exits, way.graph.result)
}

/// For each node whether what is known before it has the fact that it asks, in a walk from the first
/// node to the last.
fn walked(way: &Way<'_>, sets: &[FactSet]) -> Result<Vec<bool>, NoMemory>
    requires { Walkable way.now.graph.now way.now.exits.now sets.now }
    ensures { (all : List Known) → AreAll way.now.graph.now way.now.exits.now sets.now all → IfOk result (λ bits. bits.items ≡ bits_of (nodes_of way.now.graph.now.nodes.items) all) }
{
    let nodes = way.graph.nodes.as_slice();
    let mut bits = Vec::with_capacity(way.alloc, nodes.len())?;
    let mut work = FactSet::empty(way.alloc, way.graph.result + 1)?;
    for at in 0..nodes.len() {
        begin(way, sets, &mut work, at);
        bits.push(is_proven(&nodes[at], &work))?;
        go_on(way, sets, &mut work, at)?;
    }
    Ok(bits)
}

/// So many bits of which none is set.
fn no_marks(alloc: Global, count: usize) -> Result<Vec<bool>, NoMemory>
    ensures { IfOk result (λ bits. bits.items ≡ replicate count false) }
{
    Ok(Vec::from_elem(alloc, false, count)?)
}

/// For each node whether what is known before it has the fact that it asks. Nodes that ask for nothing
/// are not walked through.
///
/// # Errors
///
/// Out of memory.
pub(crate) fn proven(way: &Way<'_>, sets: &[FactSet]) -> Result<Vec<bool>, NoMemory>
    requires { Walkable way.now.graph.now way.now.exits.now sets.now }
    ensures { (all : List Known) → AreAll way.now.graph.now way.now.exits.now sets.now all → IfOk result (λ bits. bits.items ≡ bits_of (nodes_of way.now.graph.now.nodes.items) all) }
{
    let nodes = way.graph.nodes.as_slice();
    if ask_anything(nodes) {
        return walked(way, sets);
    }
    no_marks(way.alloc, nodes.len())
}
