// Nodes one behind another.
ghost use Rattle.std.specs.Prelude.{◌≡◌, ◌++◌, ◌∷◌, [], Some, IfOk, OnOk};
ghost use Rattle.rc_rlang.specs.RegionFlow.{going, forking, returning, one_of};
ghost use Rattle.rc_graph.specs.Nodes.{effect_of, nodes_of};

use crate::names::Names;
use crate::node::{Effect, Node};
use rc_base::NoMemory;
use rc_core::Layouts;
use std::alloc::Global;

/// Over what the nodes of a function are made.
#[derive(Clone, Copy)]
pub(crate) struct Context<'c> {
    pub(crate) alloc: Global,
    pub(crate) layouts: &'c Layouts,
    pub(crate) names: &'c Names,
}

/// The points to which a statement's code leads: the next one, the one behind the loop around it, and
/// that loop's next round.
#[derive(Clone, Copy)]
pub(crate) struct Ways {
    pub(crate) next: u32,
    pub(crate) broken: u32,
    pub(crate) continued: u32,
}

impl Ways {
    /// With another next point.
    pub(crate) fn then(&self, next: u32) -> Ways
        ensures { result ≡ record { next = next; broken = self.now.broken; continued = self.now.continued } }
    {
        Ways {
            next,
            broken: self.broken,
            continued: self.continued,
        }
    }

    /// Inside a loop behind which this is, where its next round begins at a point.
    pub(crate) fn round(&self, again: u32) -> Ways
        ensures { result ≡ record { next = again; broken = self.now.next; continued = again } }
    {
        Ways {
            next: again,
            broken: self.next,
            continued: again,
        }
    }
}

/// The first where so, else the second.
pub(crate) fn either(so: bool, first: u32, second: u32) -> u32
    ensures { result ≡ one_of so first second }
{
    if so { first } else { second }
}

/// What is there, as it is but where a point is no `u32`.
pub(crate) fn known<T>(it: Option<T>) -> Result<T, NoMemory>
    ensures { IfOk result (λ known. it ≡ Some known) }
{
    match it {
        Some(known) => Ok(known),
        None => Err(NoMemory),
    }
}

/// Puts a point with one way on behind the others.
pub(crate) fn go(out: &mut Vec<Node>, effect: Effect, to: u32) -> Result<(), NoMemory>
    ensures { OnOk result (nodes_of out.new.items ≡ nodes_of out.old.items ++ going (effect_of effect) to ∷ []) }
{
    Ok(out.push(Node::Go { effect, to })?)
}

/// Puts a point with two ways on behind the others.
pub(crate) fn fork(
    out: &mut Vec<Node>,
    left: Effect,
    to_left: u32,
    right: Effect,
    to_right: u32,
) -> Result<(), NoMemory>
    ensures { OnOk result (nodes_of out.new.items ≡ nodes_of out.old.items ++ forking (effect_of left) (effect_of right) to_left to_right ∷ []) }
{
    Ok(out.push(Node::Fork {
        left,
        to_left,
        right,
        to_right,
    })?)
}

/// Puts a return behind the others, which may give a variable.
pub(crate) fn leave(out: &mut Vec<Node>, given: Option<u32>) -> Result<(), NoMemory>
    ensures { OnOk result (nodes_of out.new.items ≡ nodes_of out.old.items ++ returning given ∷ []) }
{
    Ok(out.push(Node::Return { given })?)
}
