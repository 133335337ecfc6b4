// The needless checks of region code.
ghost use Rattle.std.specs.Prelude.{◌≡◌, IfOk};
ghost use Rattle.rc_rlang.specs.Shapes.{rlang_of};
ghost use Rattle.rc_elim.specs.Asking.{asks_in_any};
ghost use Rattle.rc_elim.specs.Masks.{HasPoints, MarksRemovable, marks_in};

use crate::asking::ask_anything;
use crate::mask::Mask;
use crate::removal::removable;
use rc_base::NoMemory;
use rc_graph::Graph;
use rc_infer::{graphs_of, infer_over};
use rc_rlang::rlang::Rlang;
use std::alloc::Global;

/// Whether the check at some point of the functions with these graphs asks for a fact.
fn asks_in_any(graphs: &[Graph]) -> bool
    ensures { result ≡ asks_in_any graphs.now }
{
    let mut rest = graphs;
    while let [graph, more @ ..] = rest {
        if ask_anything(graph.nodes.as_slice()) {
            return true;
        }
        rest = more;
    }
    false
}

/// The mask of the stores whose checks may go: those that some consistent annotation of the code with
/// facts proves needless, and no others. Of code in which no check asks for a fact none are inferred.
///
/// # Errors
///
/// Out of memory.
pub fn needless(alloc: Global, code: &Rlang) -> Result<Mask, NoMemory>
    ensures points { IfOk result (HasPoints (rlang_of code.now)) }
    ensures marks { IfOk result (λ mask. MarksRemovable (rlang_of code.now) (marks_in mask)) }
{
    let graphs = graphs_of(alloc, code)?;
    if !asks_in_any(graphs.as_slice()) {
        return Mask::none(alloc, code);
    }
    let facts = infer_over(alloc, code, graphs)?;
    removable(alloc, code, &facts)
}
