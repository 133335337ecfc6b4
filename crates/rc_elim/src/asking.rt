// What the check of a store asks.
ghost use Rattle.std.specs.Prelude.{◌≡◌, IfOk, length, get_or, option_map, slice_get, Some, ℕ};
ghost use Rattle.rc_rlang.specs.RegionFlow.{Node as RegionNode};
ghost use Rattle.rc_annotations.specs.Annotations.{asked, asked_by, asked_of};
ghost use Rattle.rc_facts.specs.Facts.{holds};
ghost use Rattle.rc_facts.specs.Flow.{no_set};
ghost use Rattle.rc_graph.specs.Nodes.{effect_of, node_of, nodes_of};
ghost use Rattle.rc_elim.specs.Masks.{asks, is_proven};
ghost use Rattle.rc_elim.specs.Asking.{AsksOver, ask_anything, bits_of};

use rc_base::NoMemory;
use rc_core::ty::Note;
use rc_facts::{Fact, FactSet};
use rc_graph::{Effect, Node};
use std::alloc::Global;

/// The fact that the check of a store asks, where its cell has an annotation.
fn asked(note: Note, value: u32, holder: u32) -> Option<Fact>
    ensures { result ≡ asked note value holder }
{
    match note {
        Note::Plain => None,
        Note::SameRegion => Some(Fact::In(value, holder)),
        Note::ParentPtr => Some(Fact::Up(value, holder)),
        Note::Traditional => Some(Fact::Trad(value)),
    }
}

/// The fact that an effect asks, if it does.
fn asked_of(effect: &Effect) -> Option<Fact>
    ensures { result ≡ asked_of (effect_of effect.now) }
{
    match effect {
        Effect::Stored(value, holder, note) => asked(*note, *value, *holder),
        _ => None,
    }
}

/// The fact that the check at a node asks, if there is one.
fn asked_by(node: &Node) -> Option<Fact>
    ensures { result ≡ asked_by (node_of node.now) }
{
    match node {
        Node::Go { effect, .. } => asked_of(effect),
        Node::Fork { left, .. } => asked_of(left),
        Node::Return { .. } => None,
    }
}

/// Whether a node is there whose check asks for a fact.
pub(crate) fn asks(nodes: &[Node], point: usize) -> bool
    ensures { result ≡ asks (option_map node_of (slice_get nodes.now point)) }
{
    match nodes.get(point) {
        None => false,
        Some(node) => asked_by(node).is_some(),
    }
}

/// Whether the check at one of these nodes asks for a fact.
pub(crate) fn ask_anything(nodes: &[Node]) -> bool
    ensures { result ≡ ask_anything (nodes_of nodes.now) }
{
    let mut rest = nodes;
    while let [node, more @ ..] = rest {
        if asked_by(node).is_some() {
            return true;
        }
        rest = more;
    }
    false
}

/// Whether a set has the fact that a node asks.
pub(crate) fn is_proven(node: &Node, facts: &FactSet) -> bool
    requires { AsksOver facts.now.variables (node_of node.now) }
    ensures { result ≡ is_proven (node_of node.now) (holds facts.now) }
{
    match asked_by(node) {
        None => false,
        Some(fact) => facts.has(fact),
    }
}
