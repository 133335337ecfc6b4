// The heads of a function: where ways may meet.
ghost use Rattle.std.specs.Prelude.{◌≡◌, ◌<◌, ℕ, true, IsTrue, IfOk, length, slice_get, Some};
ghost use Rattle.rc_rlang.specs.RegionFlow.{Edge};
ghost use Rattle.rc_graph.specs.Heads.{AreHeads, LeadsAlone};
ghost use Rattle.rc_graph.specs.Heading.{AreBegun, AreMarked, IsMarked, Grew};
ghost use Rattle.rc_graph.specs.Nodes.{node_of, nodes_of};

use crate::node::{Effect, Node};
use rc_base::NoMemory;
use std::alloc::Global;

/// Whether a node leads to a point by one edge alone.
fn leads_alone(node: &Node, to: u32) -> bool
    ensures { IsTrue result → (edge : Edge) × LeadsAlone (node_of node.now) to edge }
{
    match node {
        Node::Go { to: next, .. } => *next == to,
        Node::Fork {
            to_left,
            to_right,
            ..
        } => (*to_left == to) != (*to_right == to),
        Node::Return { .. } => false,
    }
}

/// The first point is a head, and each to which the point before it doesn't lead by one edge alone.
fn begun(alloc: Global, nodes: &[Node]) -> Result<Vec<bool>, NoMemory>
    ensures { IfOk result (λ heads. AreBegun (nodes_of nodes.now) (length nodes.now) heads.items) }
{
    let mut heads = Vec::with_capacity(alloc, nodes.len())?;
    heads.push(true)?;
    let mut next = 0u32;
    for node in nodes {
        next = next.checked_add(1).ok_or(NoMemory)?;
        heads.push(!leads_alone(node, next))?;
    }
    Ok(heads)
}

/// A point is a head to which an edge leads from elsewhere than the point before it.
fn mark(heads: &mut [bool], next: u32, to: u32)
    ensures grew { Grew heads.old heads.new }
    ensures marked { IsMarked next to heads.new }
{
    let at = to as usize;
    if to != next && at < heads.len() {
        heads[at] = true;
    }
}

/// Marks the points to which a node leads, but for the one behind it.
fn mark_node(heads: &mut [bool], next: u32, node: &Node)
    ensures grew { Grew heads.old heads.new }
    ensures marked { (k : ℕ) (edge : Edge) → slice_get (node_of node.now).edges k ≡ Some edge → IsMarked next edge.to heads.new }
{
    match node {
        Node::Go { to, .. } => mark(heads, next, *to),
        Node::Fork {
            to_left,
            to_right,
            ..
        } => {
            mark(heads, next, *to_left);
            mark(heads, next, *to_right);
        }
        Node::Return { .. } => (),
    }
}

/// Whether a node calls a function.
fn calls(node: &Node) -> bool {
    match node {
        Node::Go { effect, .. } => match effect {
            Effect::Called { .. } => true,
            _ => false,
        },
        _ => false,
    }
}

/// Marks a point, if it calls a function.
fn mark_call(heads: &mut [bool], node: &Node, at: usize)
    ensures { Grew heads.old heads.new }
{
    if calls(node) && at < heads.len() {
        heads[at] = true;
    }
}

/// Marks the points that call functions: what is known behind one waits for the exit of its function.
fn mark_calls(heads: &mut [bool], nodes: &[Node])
    ensures { Grew heads.old heads.new }
{
    for at in 0..nodes.len() {
        mark_call(heads, &nodes[at], at);
    }
}

/// Marks the points to which nodes lead from elsewhere than the point before, and those that call
/// functions.
fn mark_all(heads: &mut [bool], nodes: &[Node]) -> Result<(), NoMemory>
    ensures grew { Grew heads.old heads.new }
    ensures marked { IfOk result (λ _. AreMarked (nodes_of nodes.now) (length nodes.now) heads.new) }
{
    let mut next = 0u32;
    for node in nodes {
        next = next.checked_add(1).ok_or(NoMemory)?;
        mark_node(heads, next, node);
    }
    mark_calls(heads, nodes);
    Ok(())
}

/// Which points of a function are heads, and one place behind the last. The only error is want of memory.
pub(crate) fn heads_of(alloc: Global, nodes: &[Node]) -> Result<Vec<bool>, NoMemory>
    ensures { IfOk result (λ heads. AreHeads (nodes_of nodes.now) heads.items) }
{
    let mut heads = begun(alloc, nodes)?;
    mark_all(&mut heads, nodes)?;
    Ok(heads)
}
