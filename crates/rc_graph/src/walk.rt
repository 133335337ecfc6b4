// The nodes of a function, from the first to the last.
ghost use Rattle.std.specs.Prelude.{◌≡◌, ◌<◌, ◌≤◌, ◌+◌, ◌++◌, ◌∷◌, [], ℕ, suc, zero, Option, Some, List, IfOk, OnOk, drop, length, option_map, map};
ghost use Rattle.rc_core.specs.Programs.{Struct};
ghost use Rattle.rc_core.specs.Shapes.{ty_of};
ghost use Rattle.rc_rlang.specs.Counted.{AreLayouts};
ghost use Rattle.rc_rlang.specs.RegionCode.{Routine};
ghost use Rattle.rc_rlang.specs.RegionFlow.{if_regional, nulled, step_nodes, steps_nodes, act_nodes, test_nodes, code_nodes, codes_nodes, local_variable};
ghost use Rattle.rc_rlang.specs.Shapes.{step_of, steps_of, act_of, test_of, code_of, codes_of};
ghost use Rattle.rc_graph.specs.Nodes.{Serves, effect_of, nodes_of, ends_of};

use crate::acts::act;
use crate::names::is_regional;
use crate::node::{Effect, Node};
use crate::operations::{found_false, found_true, operation};
use crate::output::{Context, Ways, either, fork, go, known};
use rc_base::NoMemory;
use rc_core::ty::Ty;
use rc_plans::{
    busy, past_code, past_step, plan_act, plan_branch, plan_fork, plan_loop, plan_repeat,
};
use rc_rlang::code::{Code, Test};
use rc_rlang::steps::Step;

/// The nodes of a step, from a point on. It leads to the next one.
#[cycle(steps)]
fn step(
    context: &Context,
    step: &Step,
    here: u32,
    next: u32,
    out: &mut Vec<Node>,
) -> Result<(), NoMemory>
    ensures { (structs : List Struct) (f : Routine) → Serves context.now structs f → OnOk result (nodes_of out.new.items ≡ nodes_of out.old.items ++ step_nodes f (step_of structs step.now) here next) }
{
    match step {
        Step::Set {
            temporary,
            ty,
            operation: done,
            ..
        } => go(out, operation(context, *temporary, ty, done)?, next),
        Step::Fork {
            temporary,
            test,
            yes,
            no,
            ..
        } => {
            let plan = known(plan_fork(yes.as_slice(), no.as_slice(), here, next))?;
            let variable = context.names.temporary(*temporary)?;
            let truth = found_true(test, variable);
            let falsehood = found_false(test, variable);
            fork(out, truth, plan.yes, falsehood, plan.no)?;
            steps(context, yes.as_slice(), plan.at_yes, next, out)?;
            steps(context, no.as_slice(), plan.at_no, next, out)
        }
    }
}

/// The nodes of steps, from a point on. They lead to the next one.
#[cycle(steps)]
fn steps(
    context: &Context,
    steps: &[Step],
    here: u32,
    next: u32,
    out: &mut Vec<Node>,
) -> Result<(), NoMemory>
    ensures { (structs : List Struct) (f : Routine) → Serves context.now structs f → OnOk result (nodes_of out.new.items ≡ nodes_of out.old.items ++ steps_nodes f (steps_of structs steps.now) here next) }
{
    let mut at = here;
    for i in 0..steps.len() {
        let one = &steps[i];
        let behind = known(past_step(one, at))?;
        let to = either(i + 1 == steps.len(), next, behind);
        step(context, one, at, to, out)?;
        at = behind;
    }
    Ok(())
}

/// The node of a branch, with the points to which it leads where it is taken and where it isn't.
fn branch(
    context: &Context,
    test: &Test,
    taken: u32,
    past: u32,
    out: &mut Vec<Node>,
) -> Result<(), NoMemory>
    ensures { (structs : List Struct) (f : Routine) → Serves context.now structs f → OnOk result (nodes_of out.new.items ≡ nodes_of out.old.items ++ test_nodes f (Some (test_of test.now)) taken past) }
{
    let variable = context.names.temporary(0)?;
    let truth = found_true(&test.ty, variable);
    let falsehood = found_false(&test.ty, variable);
    if test.wanted {
        fork(out, truth, taken, falsehood, past)
    } else {
        fork(out, falsehood, taken, truth, past)
    }
}

/// The node of the condition of a loop, where it has one.
fn condition(
    context: &Context,
    test: &Option<Test>,
    taken: u32,
    past: u32,
    out: &mut Vec<Node>,
) -> Result<(), NoMemory>
    ensures { (structs : List Struct) (f : Routine) → Serves context.now structs f → OnOk result (nodes_of out.new.items ≡ nodes_of out.old.items ++ test_nodes f (option_map test_of test.now) taken past) }
{
    match test {
        None => Ok(()),
        Some(one) => branch(context, one, taken, past, out),
    }
}

/// What clearing a local does.
fn clear(context: &Context, local: u32, ty: &Ty) -> Result<Effect, NoMemory>
    ensures { (structs : List Struct) (f : Routine) → Serves context.now structs f → IfOk result (λ effect. effect_of effect ≡ if_regional (ty_of ty.now) (nulled (local_variable f local))) }
{
    if is_regional(ty) {
        Ok(Effect::Nulled(context.names.local(local)?))
    } else {
        Ok(Effect::Nothing)
    }
}

/// The nodes of the code of a statement, from a point on.
///
/// The points of code that stands in other code are counted once for each statement around it.
#[cycle(code)]
pub(crate) fn code(
    context: &Context,
    code: &Code,
    here: u32,
    ways: &Ways,
    out: &mut Vec<Node>,
) -> Result<(), NoMemory>
    requires laid { AreLayouts context.now.layouts.now }
    ensures { (structs : List Struct) (f : Routine) → Serves context.now structs f → OnOk result (nodes_of out.new.items ≡ nodes_of out.old.items ++ code_nodes f (code_of structs code.now) here (ends_of ways.now)) }
{
    match code {
        Code::Simple {
            steps: all,
            act: last,
        } => {
            let plan = known(plan_act(context.layouts, all.as_slice(), last, here, ways.next))?;
            steps(context, all.as_slice(), here, plan.behind, out)?;
            act(context, last, plan.at_act, ways.next, out)
        }
        Code::Clear { local, ty, .. } => go(out, clear(context, *local, ty)?, ways.next),
        Code::Block { body } => codes(context, body.as_slice(), here, ways, out),
        Code::Branch {
            steps: all,
            test,
            yes,
            no,
        } => {
            let plan = known(plan_branch(
                context.layouts,
                all.as_slice(),
                yes,
                no,
                here,
                ways.next,
            ))?;
            steps(context, all.as_slice(), here, plan.at_test, out)?;
            branch(context, test, plan.taken, plan.past, out)?;
            self::code(context, yes, plan.at_yes, ways, out)?;
            self::code(context, no, plan.at_no, ways, out)
        }
        Code::Loop {
            steps: all,
            test,
            third,
            body,
            ..
        } => {
            let plan = known(plan_loop(context.layouts, all.as_slice(), test, third, body, here))?;
            go(out, Effect::Nothing, plan.entry)?;
            steps(context, all.as_slice(), plan.first, plan.at_test, out)?;
            condition(context, test, plan.inside, ways.next, out)?;
            self::code(context, body, plan.at_body, &ways.round(plan.back), out)?;
            self::code(context, third, plan.at_third, &ways.then(here), out)
        }
        Code::Repeat {
            body,
            steps: all,
            test,
            ..
        } => {
            let plan = known(plan_repeat(context.layouts, body, all.as_slice(), here))?;
            go(out, Effect::Nothing, plan.entry)?;
            self::code(context, body, plan.first, &ways.round(plan.tail), out)?;
            steps(context, all.as_slice(), plan.at_tail, plan.at_test, out)?;
            branch(context, test, here, ways.next, out)
        }
        Code::Break { .. } => go(out, Effect::Nothing, ways.broken),
        Code::Continue { .. } => go(out, Effect::Nothing, ways.continued),
    }
}

/// The nodes of the code of statements, from a point on.
#[cycle(code)]
fn codes(
    context: &Context,
    body: &[Code],
    here: u32,
    ways: &Ways,
    out: &mut Vec<Node>,
) -> Result<(), NoMemory>
    requires laid { AreLayouts context.now.layouts.now }
    ensures { (structs : List Struct) (f : Routine) → Serves context.now structs f → OnOk result (nodes_of out.new.items ≡ nodes_of out.old.items ++ codes_nodes f (codes_of structs body.now) here (ends_of ways.now)) }
{
    let last = busy(context.layouts, body);
    let mut at = here;
    for i in 0..body.len() {
        let one = &body[i];
        let behind = known(past_code(context.layouts, one, at))?;
        let to = either(i + 1 < last, behind, ways.next);
        code(context, one, at, &ways.then(to), out)?;
        at = behind;
    }
    Ok(())
}
