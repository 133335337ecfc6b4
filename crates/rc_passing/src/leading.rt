// A working set is led over the edges of a node.
ghost use Rattle.std.specs.Prelude.{◌≡◌, ◌<◌, suc, IfOk, OnOk};
ghost use Rattle.rc_facts.specs.Facts.{holds};
ghost use Rattle.rc_facts.specs.Flow.{IsClosed};
ghost use Rattle.rc_graph.specs.Nodes.{effect_of, node_of};
ghost use Rattle.rc_edges.specs.Reading.{Loses};
ghost use Rattle.rc_passing.specs.Leading.{EdgeLeads, GoesOnAlone, IsLed, LeadsOn, MayFollow, MayLead, NodeLeads};

use crate::losses::{Loss, note};
use rc_base::NoMemory;
use rc_boundaries::lose;
use rc_crossing::cross;
use rc_facts::FactSet;
use rc_graph::{Effect, Graph, Node};
use std::alloc::Global;

/// Over what edges a set is led: those of a graph, by the facts of the exits of functions.
#[derive(Clone, Copy)]
pub struct Setting<'a> {
    pub alloc: Global,
    pub graph: &'a Graph,
    pub exits: &'a [FactSet],
}

/// Leads a set over an edge. Where a head is there, its set keeps what this one has then.
fn follow(
    setting: &Setting<'_>,
    sets: &mut [FactSet],
    work: &mut FactSet,
    effect: &Effect,
    to: u32,
    losses: &mut Vec<Loss>,
) -> Result<bool, NoMemory>
    requires work { work.old.variables ≡ suc setting.now.graph.now.result }
    requires closed { IsClosed (suc setting.now.graph.now.result) setting.now.graph.now.result (holds work.old) }
    requires may { MayFollow setting.now.graph.now.heads.items setting.now.exits.now setting.now.graph.now.result (record { effect = effect_of effect.now; to = to }) sets.old }
    ensures work { work.new.variables ≡ work.old.variables }
    ensures led { OnOk result (IsLed setting.now.exits.now setting.now.graph.now.result (record { effect = effect_of effect.now; to = to }) work.old work.new) }
    ensures lost { IfOk result (λ lost. Loses lost sets.old sets.new (EdgeLeads setting.now.graph.now.heads.items setting.now.exits.now setting.now.graph.now.result (record { effect = effect_of effect.now; to = to }) work.old)) }
{
    cross(
        setting.alloc,
        work,
        effect,
        setting.exits,
        setting.graph.result,
    )?;
    if !setting.graph.heads[to as usize] {
        return Ok(false);
    }
    let lost = lose(sets, to as usize, work);
    note(losses, lost, Loss::Head(to))?;
    Ok(lost)
}

/// Leads a copy of a set over an edge of a node: to a head, or where the other edge leads too.
fn part(
    setting: &Setting<'_>,
    sets: &mut [FactSet],
    work: &FactSet,
    effect: &Effect,
    to: u32,
    losses: &mut Vec<Loss>,
) -> Result<bool, NoMemory>
    requires work { work.now.variables ≡ suc setting.now.graph.now.result }
    requires few { setting.now.graph.now.result < 128 }
    requires closed { IsClosed (suc setting.now.graph.now.result) setting.now.graph.now.result (holds work.now) }
    requires may { MayFollow setting.now.graph.now.heads.items setting.now.exits.now setting.now.graph.now.result (record { effect = effect_of effect.now; to = to }) sets.old }
    ensures { IfOk result (λ lost. Loses lost sets.old sets.new (EdgeLeads setting.now.graph.now.heads.items setting.now.exits.now setting.now.graph.now.result (record { effect = effect_of effect.now; to = to }) work.now)) }
{
    let mut side = FactSet::empty(setting.alloc, setting.graph.result + 1)?;
    side.copy(work);
    follow(setting, sets, &mut side, effect, to, losses)
}

/// Leads a set over the edges of a node: to the next point, if that is no head, and into the sets of the
/// heads to which it leads. Says whether one of these lost a fact. The only error is want of memory.
pub fn lead(
    setting: &Setting<'_>,
    sets: &mut [FactSet],
    work: &mut FactSet,
    node: &Node,
    losses: &mut Vec<Loss>,
) -> Result<bool, NoMemory>
    requires work { work.old.variables ≡ suc setting.now.graph.now.result }
    requires few { setting.now.graph.now.result < 128 }
    requires closed { IsClosed (suc setting.now.graph.now.result) setting.now.graph.now.result (holds work.old) }
    requires may { MayLead setting.now.graph.now.heads.items setting.now.exits.now setting.now.graph.now.result (node_of node.now) sets.old }
    requires alone { GoesOnAlone setting.now.graph.now.heads.items (node_of node.now) }
    ensures work { work.new.variables ≡ work.old.variables }
    ensures led { OnOk result (LeadsOn setting.now.graph.now.heads.items setting.now.exits.now setting.now.graph.now.result (node_of node.now) work.old work.new) }
    ensures lost { IfOk result (λ lost. Loses lost sets.old sets.new (NodeLeads setting.now.graph.now.heads.items setting.now.exits.now setting.now.graph.now.result (node_of node.now) work.old)) }
{
    match node {
        Node::Go { effect, to } => follow(setting, sets, work, effect, *to, losses),
        Node::Fork {
            left,
            to_left,
            right,
            to_right,
        } => {
            if setting.graph.heads[*to_left as usize] {
                let away = part(setting, sets, work, left, *to_left, losses)?;
                let on = follow(setting, sets, work, right, *to_right, losses)?;
                Ok(away | on)
            } else {
                let away = part(setting, sets, work, right, *to_right, losses)?;
                let on = follow(setting, sets, work, left, *to_left, losses)?;
                Ok(away | on)
            }
        }
        Node::Return { .. } => Ok(false),
    }
}
