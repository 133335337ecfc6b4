// The steps of a walk at one point of a function, of the facts of all functions.
ghost use Rattle.std.specs.Prelude.{◌≡◌, ◌<◌, ◌≤◌, suc, true, false, [], IfOk, OnOk, length, get_or};
ghost use Rattle.rc_facts.specs.Facts.{holds};
ghost use Rattle.rc_facts.specs.Flow.{IsClosed, no_set};
ghost use Rattle.rc_graph.specs.Nodes.{node_of};
ghost use Rattle.rc_edges.specs.Boundaries.{NodeReady, ReturnReady};
ghost use Rattle.rc_edges.specs.Inferred.{family_of};
ghost use Rattle.rc_passing.specs.Leading.{GoesOnAlone, LeadsOn, MayLead, NodeLeads};
ghost use Rattle.rc_infer.specs.Covering.{Ready, known_at};
ghost use Rattle.rc_infer.specs.Steps.{CalledFrom, CameIn, LeftFrom, RowLost};

use rc_base::NoMemory;
use rc_boundaries::{Exit, begin, call_at, leave_at};
use rc_edges::Facts;
use rc_facts::FactSet;
use rc_graph::{Effect, Graph, Node};
use rc_passing::{Loss, Setting, lead, note};
use std::alloc::Global;

/// A point of a function.
#[derive(Clone, Copy)]
pub(crate) struct Place {
    pub(crate) function: usize,
    pub(crate) point: u32,
}

/// The function that a node calls, if it does.
pub(crate) fn callee(node: &Node) -> Option<usize> {
    match node {
        Node::Go { effect, .. } => match effect {
            Effect::Called { function, .. } => Some(*function as usize),
            _ => None,
        },
        _ => None,
    }
}

/// Takes from the first set of a function what doesn't follow from its entry.
pub(crate) fn come_in(
    alloc: Global,
    graph: &Graph,
    facts: &mut Facts,
    function: usize,
) -> Result<bool, NoMemory>
    requires { Ready graph.now function (family_of facts.old) }
    ensures { IfOk result (λ lost. CameIn graph.now function (family_of facts.old) (family_of facts.new) lost) }
{
    let sets = facts.points[function].as_mut_slice();
    let entry = &facts.entries[function];
    begin(alloc, sets, entry, graph.copies, graph.result)
}

/// At a head the working set becomes the head's.
pub(crate) fn restart(graph: &Graph, facts: &Facts, place: Place, work: &mut FactSet)
    requires ready { Ready graph.now place.function (family_of facts.now) }
    requires there { place.point < length graph.now.nodes.items }
    requires work { work.old.variables ≡ suc graph.now.result }
    ensures wide { work.new.variables ≡ work.old.variables }
    ensures head { get_or graph.now.heads.items place.point true ≡ true → work.new ≡ known_at (family_of facts.now) place.function place.point }
    ensures inner { get_or graph.now.heads.items place.point true ≡ false → work.new ≡ work.old }
{
    if !graph.heads[place.point as usize] {
        return;
    }
    let sets = facts.points[place.function].as_slice();
    work.copy(&sets[place.point as usize]);
}

/// Takes from the entry of the function that a node calls what the call doesn't give.
pub(crate) fn call_from(
    alloc: Global,
    node: &Node,
    facts: &mut Facts,
    work: &FactSet,
    losses: &mut Vec<Loss>,
) -> Result<bool, NoMemory>
    requires { NodeReady (node_of node.now) work.now.variables (family_of facts.old).entries }
    ensures { IfOk result (λ lost. CalledFrom (node_of node.now) work.now (family_of facts.old) (family_of facts.new) lost) }
{
    let lost = call_at(alloc, node, work, facts.entries.as_mut_slice())?;
    if let Some(function) = callee(node) {
        note(losses, lost, Loss::Entry(function))?;
    }
    Ok(lost)
}

/// Takes from the exit of a function what its return at a node doesn't give.
pub(crate) fn leave_from(
    alloc: Global,
    node: &Node,
    exit: Exit,
    facts: &mut Facts,
    work: &FactSet,
    losses: &mut Vec<Loss>,
) -> Result<bool, NoMemory>
    requires known { work.now.variables ≡ suc exit.result }
    requires ready { ReturnReady (node_of node.now) exit.result }
    requires few { exit.result < 128 }
    requires hidden { exit.copies ≤ exit.result }
    requires there { exit.function < length (family_of facts.old).exits }
    requires places { (get_or (family_of facts.old).exits exit.function no_set).variables ≡ suc exit.copies }
    ensures { IfOk result (λ lost. LeftFrom (node_of node.now) work.now exit.copies exit.result exit.function (family_of facts.old) (family_of facts.new) lost) }
{
    let lost = leave_at(alloc, node, work, exit, facts.exits.as_mut_slice())?;
    note(losses, lost, Loss::Exit)?;
    Ok(lost)
}

/// Leads the working set over the edges of a node.
pub(crate) fn lead_from(
    alloc: Global,
    graph: &Graph,
    node: &Node,
    function: usize,
    facts: &mut Facts,
    work: &mut FactSet,
    losses: &mut Vec<Loss>,
) -> Result<bool, NoMemory>
    requires ready { Ready graph.now function (family_of facts.old) }
    requires work { work.old.variables ≡ suc graph.now.result }
    requires closed { IsClosed (suc graph.now.result) graph.now.result (holds work.old) }
    requires may { MayLead graph.now.heads.items (family_of facts.old).exits graph.now.result (node_of node.now) (get_or (family_of facts.old).points function []) }
    requires alone { GoesOnAlone graph.now.heads.items (node_of node.now) }
    ensures work { work.new.variables ≡ work.old.variables }
    ensures led { OnOk result (LeadsOn graph.now.heads.items (family_of facts.old).exits graph.now.result (node_of node.now) work.old work.new) }
    ensures lost { IfOk result (λ lost. RowLost function (family_of facts.old) (family_of facts.new) lost (NodeLeads graph.now.heads.items (family_of facts.old).exits graph.now.result (node_of node.now) work.old)) }
{
    let setting = Setting {
        alloc,
        graph,
        exits: facts.exits.as_slice(),
    };
    let sets = facts.points[function].as_mut_slice();
    lead(&setting, sets, work, node, losses)
}
