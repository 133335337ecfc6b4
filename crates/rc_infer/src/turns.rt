// Turns of the search: from one head after another, and at once into the functions that are called.
ghost use Rattle.std.specs.Prelude.{◌≡◌, ◌<◌, ◌≤◌, true, slice_get, Some, OnOk, length};
ghost use Rattle.rc_rlang.specs.Shapes.{rlang_of};
ghost use Rattle.rc_edges.specs.Inferred.{family_of};
ghost use Rattle.rc_infer.specs.Covering.{Turning};
ghost use Rattle.rc_infer.specs.Walking.{Swept};

use crate::steps::Place;
use crate::waiting::Waiting;
use crate::walk::{Field, Losses, walk};
use rc_base::NoMemory;
use rc_edges::Facts;
use rc_graph::Graph;

/// The first head behind a point, or the end of the function.
fn next_head(heads: &[bool], point: u32, end: u32) -> u32
    requires below { point < end }
    requires heads { end < length heads.now }
    ensures over { point < result }
    ensures within { result ≤ end }
{
    for other in point + 1..end {
        if heads[other as usize] {
            return other;
        }
    }
    end
}

/// Walks from a head to before the next one, or goes over its point alone.
fn walk_from(
    field: &Field<'_>,
    graph: &Graph,
    facts: &mut Facts,
    place: Place,
    alone: bool,
) -> Result<Option<Losses>, NoMemory>
    requires graph { slice_get field.now.graphs.now place.function ≡ Some graph.now }
    requires turning { Turning (rlang_of field.now.code.now) field.now.graphs.now (family_of facts.old) }
    ensures { OnOk result (Swept (rlang_of field.now.code.now) field.now.graphs.now (family_of facts.old) (family_of facts.new)) }
{
    let end = u32::try_from(graph.nodes.len()).map_err(|_| NoMemory)?;
    if place.point >= end || !graph.heads[place.point as usize] {
        return Ok(None);
    }
    let next = next_head(graph.heads.as_slice(), place.point, end);
    let to = if alone { place.point + 1 } else { next };
    let losses = walk(field, graph, facts, place, to)?;
    Ok(Some(losses))
}

/// Lets the head that waits first have its turn, where one waits, and says whether one did.
fn turn(field: &Field<'_>, facts: &mut Facts, waiting: &mut Waiting) -> Result<bool, NoMemory>
    requires turning { Turning (rlang_of field.now.code.now) field.now.graphs.now (family_of facts.old) }
    ensures { OnOk result (Swept (rlang_of field.now.code.now) field.now.graphs.now (family_of facts.old) (family_of facts.new)) }
{
    let Some(place) = waiting.next()? else {
        return Ok(false);
    };
    let Some(graph) = field.graphs.get(place.function) else {
        return Ok(false);
    };
    let Some(node) = graph.nodes.get(place.point as usize) else {
        return Ok(false);
    };
    let first = waiting.is_first(node);
    let found = walk_from(field, graph, facts, place, first)?;
    if first {
        waiting.put_off(place);
    }
    if let Some(losses) = found {
        waiting.note(place.function, losses.sets.as_slice())?;
    }
    waiting.go_into(node)?;
    Ok(true)
}

/// Lets heads have their turns until none waits. The heads of a function come up one after another, but
/// those of a function that is called before what stands behind the call: so what a call gives and learns
/// is known before facts go on. The order costs or saves time, and decides nothing.
pub(crate) fn sweep(field: &Field<'_>, facts: &mut Facts) -> Result<(), NoMemory>
    requires turning { Turning (rlang_of field.now.code.now) field.now.graphs.now (family_of facts.old) }
    ensures { OnOk result (Swept (rlang_of field.now.code.now) field.now.graphs.now (family_of facts.old) (family_of facts.new)) }
{
    let first = field.code.parts().main as usize;
    let mut waiting = Waiting::all(field.alloc, field.graphs, first)?;
    for _turn in 0..u64::MAX {
        let more = turn(field, facts, &mut waiting)?;
        if !more {
            return Ok(());
        }
    }
    Ok(())
}
