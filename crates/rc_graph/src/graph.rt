// The nodes of a function, and how many variables it has.
ghost use Rattle.std.specs.Prelude.{◌≡◌, ◌≤◌, ◌+◌, ◌++◌, ◌∷◌, [], ℕ, suc, List, IfOk, OnOk, length, map, take, option_map};
ghost use Rattle.rc_core.specs.Programs.{Struct};
ghost use Rattle.rc_core.specs.Laid.{AreLaidOut};
ghost use Rattle.rc_core.specs.Shapes.{ty_of};
ghost use Rattle.rc_rlang.specs.Counted.{AreLayouts};
ghost use Rattle.rc_rlang.specs.RegionCode.{Routine as RegionRoutine};
ghost use Rattle.rc_rlang.specs.RegionFlow.{entered, entry_pairs, end_nodes, routine_nodes, nulled, if_regional, temporary_variable};
ghost use Rattle.rc_rlang.specs.Shapes.{code_of, routine_in};
ghost use Rattle.rc_graph.specs.Nodes.{Numbers, Serves, IsGraph, effect_of, entry_of, nodes_of};
ghost use Rattle.rc_plans.specs.Plans.{routine_plan};

use crate::acts::given;
use crate::heads::heads_of;
use crate::names::{Names, is_regional, number};
use crate::node::{Effect, Entry, Node};
use crate::output::{Context, Ways, go, known, leave};
use crate::walk::code;
use rc_base::NoMemory;
use rc_core::Layouts;
use rc_core::ty::Ty;
use rc_plans::{add, plan_routine, temporaries};
use rc_rlang::code::Routine;
use std::alloc::Global;

/// The nodes of a function, each at the number of its point, and how its region variables are numbered:
/// first the hidden copies, then its locals and temporaries, then its result.
#[derive(Drop)]
pub struct Graph {
    pub nodes: Vec<Node>,
    /// How many hidden copies there are.
    pub copies: u32,
    /// The variable of the result.
    pub result: u32,
    /// Of each point whether it is a head, where ways may meet, and one place behind the last.
    pub heads: Vec<bool>,
}

/// The parameters that are regions or pointers, with their hidden copies.
fn entries(alloc: Global, names: &Names, parameters: &[Ty]) -> Result<Vec<Entry>, NoMemory>
    ensures { (f : RegionRoutine) → Numbers f names.now → IfOk result (λ all. map entry_of all.items ≡ entry_pairs f (map ty_of parameters.now) 0) }
{
    let mut all = Vec::new(alloc);
    let mut at = 0u32;
    for ty in parameters {
        if is_regional(ty) {
            let local = names.local(at)?;
            all.push(Entry {
                local,
                copy: names.copy(at),
            })?;
        }
        at = add(at, 1)?;
    }
    Ok(all)
}

/// The parameters of a function: its first locals.
fn parameters(routine: &Routine) -> &[Ty]
    ensures { result.now ≡ take routine.now.parameters routine.now.locals.items }
{
    let all = routine.locals.as_slice();
    let count = routine.parameters as usize;
    if count < all.len() {
        &all[..count]
    } else {
        all
    }
}

/// What the point behind a body does, where the function has a result of this type.
fn ended(context: &Context, ty: &Ty) -> Result<Effect, NoMemory>
    ensures { (structs : List Struct) (f : RegionRoutine) → Serves context.now structs f → IfOk result (λ effect. effect_of effect ≡ if_regional (ty_of ty.now) (nulled (temporary_variable f 0))) }
{
    if is_regional(ty) {
        Ok(Effect::Nulled(context.names.temporary(0)?))
    } else {
        Ok(Effect::Nothing)
    }
}

/// The nodes behind a body, from a point on.
fn end(
    context: &Context,
    promised: &Option<Ty>,
    here: u32,
    out: &mut Vec<Node>,
) -> Result<(), NoMemory>
    ensures { (structs : List Struct) (f : RegionRoutine) → Serves context.now structs f → OnOk result (nodes_of out.new.items ≡ nodes_of out.old.items ++ end_nodes f (option_map ty_of promised.now) here) }
{
    match promised {
        None => leave(out, None),
        Some(ty) => {
            let behind = add(1, here)?;
            let effect = ended(context, ty)?;
            let variable = given(context, promised)?;
            go(out, effect, behind)?;
            leave(out, variable)
        }
    }
}

/// The nodes of a function, from its entry on.
fn nodes(context: &Context, routine: &Routine, out: &mut Vec<Node>) -> Result<(), NoMemory>
    requires laid { AreLayouts context.now.layouts.now }
    ensures { (structs : List Struct) → Serves context.now structs (routine_in structs routine.now) → OnOk result (nodes_of out.new.items ≡ nodes_of out.old.items ++ routine_nodes (routine_in structs routine.now)) }
{
    let plan = known(plan_routine(context.layouts, &routine.body))?;
    let entries = entries(context.alloc, context.names, parameters(routine))?;
    go(out, Effect::Entered { entries }, plan.first)?;
    let ways = Ways {
        next: plan.at_end,
        broken: plan.at_end,
        continued: plan.at_end,
    };
    code(context, &routine.body, 1, &ways, out)?;
    end(context, &routine.result, plan.at_end, out)
}

/// The graph of a function, over the layouts of its program's structs.
///
/// # Errors
///
/// Out of memory, which is also said where a number is no `u32`.
pub fn graph_of(alloc: Global, layouts: &Layouts, routine: &Routine) -> Result<Graph, NoMemory>
    requires laid { AreLayouts layouts.now }
    ensures { (structs : List Struct) → AreLaidOut structs layouts.now → IfOk result (IsGraph (routine_in structs routine.now)) }
{
    let names = number(alloc, routine.parameters, routine.locals.as_slice())?;
    let height = temporaries(routine)?;
    let result = names.temporary(height)?;
    let context = Context {
        alloc,
        layouts,
        names: &names,
    };
    let mut all = Vec::new(alloc);
    nodes(&context, routine, &mut all)?;
    let heads = heads_of(alloc, all.as_slice())?;
    Ok(Graph {
        nodes: all,
        copies: names.copies,
        result,
        heads,
    })
}
