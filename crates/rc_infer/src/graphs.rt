// The graphs of all functions.
ghost use Rattle.std.specs.Prelude.{IfOk, length};
ghost use Rattle.rc_rlang.specs.Shapes.{rlang_of};
ghost use Rattle.rc_graph.specs.Nodes.{AreGraphs};

use rc_base::NoMemory;
use rc_graph::{Graph, graph_of};
use rc_rlang::rlang::Rlang;
use std::alloc::Global;

/// The graph of each function, in their order.
///
/// # Errors
///
/// Out of memory.
pub fn graphs_of(alloc: Global, code: &Rlang) -> Result<Vec<Graph>, NoMemory>
    ensures { IfOk result (λ all. AreGraphs (rlang_of code.now) (length (rlang_of code.now).functions) all.items) }
{
    let parts = code.parts();
    let layouts = code.layouts();
    let mut all = Vec::new(alloc);
    for g in 0..parts.functions.len() {
        let graph = graph_of(alloc, layouts, &parts.functions[g])?;
        all.push(graph)?;
    }
    Ok(all)
}
