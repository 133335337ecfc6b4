// Walks over the points of a function.
ghost use Rattle.std.specs.Prelude.{◌≡◌, ◌<◌, ◌≤◌, true, slice_get, Some, IfOk, length, get_or};
ghost use Rattle.rc_rlang.specs.Shapes.{rlang_of};
ghost use Rattle.rc_facts.specs.Facts.{Known};
ghost use Rattle.rc_edges.specs.Families.{Family};
ghost use Rattle.rc_edges.specs.Inferred.{family_of};
ghost use Rattle.rc_infer.specs.Covering.{Covers, Turning};
ghost use Rattle.rc_infer.specs.Walking.{Begun, Going, Reached, Stepped, Walked, Went};

use crate::steps::{Place, call_from, come_in, lead_from, leave_from, restart};
use rc_base::NoMemory;
use rc_boundaries::Exit;
use rc_edges::Facts;
use rc_facts::FactSet;
use rc_graph::Graph;
use rc_passing::Loss;
use rc_rlang::rlang::Rlang;
use std::alloc::Global;

/// The code that is searched, and the graph of each of its functions.
#[derive(Clone, Copy)]
pub(crate) struct Field<'a> {
    pub(crate) alloc: Global,
    pub(crate) code: &'a Rlang,
    pub(crate) graphs: &'a [Graph],
}

/// Whether sets lost facts, and which did.
#[derive(Drop)]
pub(crate) struct Losses {
    pub(crate) lost: bool,
    pub(crate) sets: Vec<Loss>,
}

/// Goes over one point with the working set, and says whether another set lost a fact.
fn step(
    field: &Field<'_>,
    graph: &Graph,
    facts: &mut Facts,
    work: &mut FactSet,
    place: Place,
    losses: &mut Vec<Loss>,
) -> Result<bool, NoMemory>
    requires graph { slice_get field.now.graphs.now place.function ≡ Some graph.now }
    requires there { place.point < length graph.now.nodes.items }
    requires going { Going (rlang_of field.now.code.now) field.now.graphs.now graph.now place.function place.point (family_of facts.old) work.old }
    ensures work { work.new.variables ≡ work.old.variables }
    ensures stepped { (all : Family) → Reached (rlang_of field.now.code.now) field.now.graphs.now graph.now place.function place.point (family_of facts.old) all work.old
        → IfOk result (λ lost. Stepped (rlang_of field.now.code.now) field.now.graphs.now graph.now place.function place.point (family_of facts.old) (family_of facts.new) all work.new lost) }
{
    restart(graph, facts, place, work);
    let node = &graph.nodes[place.point as usize];
    let exit = Exit {
        function: place.function,
        copies: graph.copies,
        result: graph.result,
    };
    let called = call_from(field.alloc, node, facts, work, losses)?;
    let left = leave_from(field.alloc, node, exit, facts, work, losses)?;
    let led = lead_from(
        field.alloc,
        graph,
        node,
        place.function,
        facts,
        work,
        losses,
    )?;
    Ok(called | (left | led))
}

/// Goes over points of a function, from a head to before another point.
fn go(
    field: &Field<'_>,
    graph: &Graph,
    facts: &mut Facts,
    from: Place,
    to: u32,
) -> Result<Losses, NoMemory>
    requires graph { slice_get field.now.graphs.now from.function ≡ Some graph.now }
    requires to { to ≤ length graph.now.nodes.items }
    requires order { from.point ≤ to }
    requires head { get_or graph.now.heads.items from.point true ≡ true }
    requires turning { Turning (rlang_of field.now.code.now) field.now.graphs.now (family_of facts.old) }
    ensures { (all : Family) → Covers (rlang_of field.now.code.now) field.now.graphs.now (family_of facts.old) all
        → IfOk result (λ losses. (after : Known) × Went (rlang_of field.now.code.now) field.now.graphs.now graph.now from.function from.point to (family_of facts.old) (family_of facts.new) all after losses.lost) }
{
    let mut work = FactSet::empty(field.alloc, graph.result + 1)?;
    let mut lost = false;
    let mut sets = Vec::new(field.alloc);
    for point in from.point..to {
        let place = Place {
            function: from.function,
            point,
        };
        let more = step(field, graph, facts, &mut work, place, &mut sets)?;
        lost = lost | more;
    }
    Ok(Losses { lost, sets })
}

/// Lets facts come in from the entry of a function, where a walk begins at its first point.
fn enter(field: &Field<'_>, graph: &Graph, facts: &mut Facts, from: Place) -> Result<bool, NoMemory>
    requires graph { slice_get field.now.graphs.now from.function ≡ Some graph.now }
    requires turning { Turning (rlang_of field.now.code.now) field.now.graphs.now (family_of facts.old) }
    ensures { (all : Family) → Covers (rlang_of field.now.code.now) field.now.graphs.now (family_of facts.old) all
        → IfOk result (λ lost. Begun (rlang_of field.now.code.now) field.now.graphs.now graph.now from.function from.point (family_of facts.old) (family_of facts.new) all lost) }
{
    if from.point != 0 {
        return Ok(false);
    }
    come_in(field.alloc, graph, facts, from.function)
}

/// Walks over points of a function, from a head to before another point. Where that head is the first
/// point, facts come in from the entry.
pub(crate) fn walk(
    field: &Field<'_>,
    graph: &Graph,
    facts: &mut Facts,
    from: Place,
    to: u32,
) -> Result<Losses, NoMemory>
    requires graph { slice_get field.now.graphs.now from.function ≡ Some graph.now }
    requires to { to ≤ length graph.now.nodes.items }
    requires order { from.point ≤ to }
    requires head { get_or graph.now.heads.items from.point true ≡ true }
    requires turning { Turning (rlang_of field.now.code.now) field.now.graphs.now (family_of facts.old) }
    ensures { (all : Family) → Covers (rlang_of field.now.code.now) field.now.graphs.now (family_of facts.old) all
        → IfOk result (λ losses. Walked (rlang_of field.now.code.now) field.now.graphs.now graph.now from.function from.point to (family_of facts.old) (family_of facts.new) all losses.lost) }
{
    let begun = enter(field, graph, facts, from)?;
    let losses = go(field, graph, facts, from, to)?;
    Ok(Losses {
        lost: begun | losses.lost,
        sets: losses.sets,
    })
}
