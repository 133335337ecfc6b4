// Rounds over functions, until no set loses a fact.
ghost use Rattle.std.specs.Prelude.{length, IfOk, OnOk};
ghost use Rattle.rc_rlang.specs.Shapes.{rlang_of};
ghost use Rattle.rc_edges.specs.Heads.{Inferred};
ghost use Rattle.rc_edges.specs.Inferred.{family_of};
ghost use Rattle.rc_graph.specs.Nodes.{AreGraphs};
ghost use Rattle.rc_infer.specs.Covering.{Turning};
ghost use Rattle.rc_infer.specs.Walking.{Found, Rounded};

use crate::graphs::graphs_of;
use crate::start::full;
use crate::steps::Place;
use crate::turns::sweep;
use crate::walk::{Field, walk};
use rc_base::NoMemory;
use rc_edges::Facts;
use rc_graph::Graph;
use rc_rlang::rlang::Rlang;
use std::alloc::Global;

/// Goes through all functions, and says whether a set lost a fact.
fn round(field: &Field<'_>, facts: &mut Facts) -> Result<bool, NoMemory>
    requires { Turning (rlang_of field.now.code.now) field.now.graphs.now (family_of facts.old) }
    ensures { IfOk result (Rounded (rlang_of field.now.code.now) field.now.graphs.now (length field.now.graphs.now) (family_of facts.old) (family_of facts.new)) }
{
    let mut lost = false;
    for function in 0..field.graphs.len() {
        let graph = &field.graphs[function];
        let end = u32::try_from(graph.nodes.len()).map_err(|_| NoMemory)?;
        let losses = walk(field, graph, facts, Place { function, point: 0 }, end)?;
        lost = lost | losses.lost;
    }
    Ok(lost)
}

/// Goes through heads and functions until no set loses a fact.
fn search(field: &Field<'_>, facts: &mut Facts) -> Result<(), NoMemory>
    requires { Turning (rlang_of field.now.code.now) field.now.graphs.now (family_of facts.old) }
    ensures { OnOk result (Found (rlang_of field.now.code.now) field.now.graphs.now (family_of facts.new)) }
{
    'rounds: loop {
        sweep(field, facts)?;
        let lost = round(field, facts)?;
        if !lost {
            return Ok(());
        }
    }
}

/// The greatest consistent facts of region code, whose graphs these are. Heads have their turns until none
/// waits for one; a round through all functions that loses nothing shows that the facts are consistent.
///
/// # Errors
///
/// Out of memory.
pub fn infer_over(alloc: Global, code: &Rlang, graphs: Vec<Graph>) -> Result<Facts, NoMemory>
    requires { AreGraphs (rlang_of code.now) (length (rlang_of code.now).functions) graphs.items }
    ensures { IfOk result (Inferred code.now) }
{
    let mut facts = full(alloc, code, graphs.as_slice())?;
    let field = Field {
        alloc,
        code,
        graphs: graphs.as_slice(),
    };
    search(&field, &mut facts)?;
    facts.graphs = graphs;
    Ok(facts)
}

/// The greatest consistent facts of region code.
///
/// # Errors
///
/// Out of memory.
pub fn infer(alloc: Global, code: &Rlang) -> Result<Facts, NoMemory>
    ensures { IfOk result (Inferred code.now) }
{
    let graphs = graphs_of(alloc, code)?;
    infer_over(alloc, code, graphs)
}
