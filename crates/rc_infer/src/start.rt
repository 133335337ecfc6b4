// Where the search begins: with all facts.
ghost use Rattle.std.specs.Prelude.{◌≡◌, ◌<◌, ◌≤◌, true, false, IfOk, length, cond};
ghost use Rattle.rc_facts.specs.declared.fact.Fact.{Fact};
ghost use Rattle.rc_facts.specs.Facts.{holds, is_over};
ghost use Rattle.rc_rlang.specs.Shapes.{rlang_of};
ghost use Rattle.rc_graph.specs.Nodes.{AreGraphs};
ghost use Rattle.rc_edges.specs.Inferred.{family_of};
ghost use Rattle.rc_infer.specs.Covering.{Turning};
ghost use Rattle.rc_infer.specs.Starting.{AreWhole, IsWhole};

use rc_base::NoMemory;
use rc_edges::Facts;
use rc_facts::FactSet;
use rc_graph::Graph;
use rc_rlang::rlang::Rlang;
use std::alloc::Global;

/// Before a point all facts but those on the scratch variable, where it is a head.
fn point(alloc: Global, is_head: bool, spare: u32) -> Result<FactSet, NoMemory>
    requires { spare < 128 }
    ensures { is_head ≡ true → IfOk result (IsWhole spare) }
{
    if !is_head {
        return FactSet::empty(alloc, 0);
    }
    let mut set = FactSet::full(alloc, spare + 1)?;
    set.forget(spare);
    Ok(set)
}

/// Before each head of a function all facts but those on the scratch variable.
fn points(alloc: Global, graph: &Graph) -> Result<Vec<FactSet>, NoMemory>
    requires few { graph.now.result < 128 }
    requires heads { length graph.now.nodes.items < length graph.now.heads.items }
    ensures long { IfOk result (λ all. length all.items ≡ length graph.now.nodes.items) }
    ensures whole { IfOk result (λ all. AreWhole graph.now graph.now.result all.items) }
{
    let mut all = Vec::new(alloc);
    for at in 0..graph.nodes.len() {
        let set = point(alloc, graph.heads[at], graph.result)?;
        all.push(set)?;
    }
    Ok(all)
}

/// All facts on hidden copies, or none where the function is `main`.
fn entry(alloc: Global, copies: u32, is_main: bool) -> Result<FactSet, NoMemory>
    requires { copies ≤ 128 }
    ensures variables { IfOk result (λ set. set.variables ≡ copies) }
    ensures facts { IfOk result (λ set. (fact : Fact) → holds set fact ≡ cond is_main false (is_over copies fact)) }
{
    if is_main {
        FactSet::empty(alloc, copies)
    } else {
        FactSet::full(alloc, copies)
    }
}

/// All facts of region code, but none where `main` begins. The only error is want of memory.
pub(crate) fn full(alloc: Global, code: &Rlang, graphs: &[Graph]) -> Result<Facts, NoMemory>
    requires { AreGraphs (rlang_of code.now) (length (rlang_of code.now).functions) graphs.now }
    ensures { IfOk result (λ facts. Turning (rlang_of code.now) graphs.now (family_of facts)) }
{
    let parts = code.parts();
    let mut facts = Facts {
        graphs: Vec::new(alloc),
        points: Vec::new(alloc),
        entries: Vec::new(alloc),
        exits: Vec::new(alloc),
    };
    for g in 0..graphs.len() {
        let graph = &graphs[g];
        let sets = points(alloc, graph)?;
        let first = entry(alloc, graph.copies, g == parts.main as usize)?;
        let last = FactSet::full(alloc, graph.copies + 1)?;
        facts.points.push(sets)?;
        facts.entries.push(first)?;
        facts.exits.push(last)?;
    }
    Ok(facts)
}
