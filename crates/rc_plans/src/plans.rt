// Where the parts of code stand, and where they lead.
ghost use Rattle.std.specs.Prelude.{◌≡◌, ◌+◌, suc, nat_eq, List, drop, length, option_map};
ghost use Rattle.rc_core.specs.Programs.{Struct};
ghost use Rattle.rc_core.specs.Laid.{AreLaidOut};
ghost use Rattle.rc_rlang.specs.Counted.{AreLayouts, Counted};
ghost use Rattle.rc_rlang.specs.RegionPoints.{step_points, steps_points, act_points, branch_points, code_points};
ghost use Rattle.rc_rlang.specs.RegionFlow.{first_of as first_point};
ghost use Rattle.rc_rlang.specs.Shapes.{step_of, steps_of, act_of, test_of, code_of};
ghost use Rattle.rc_plans.specs.Plans.{Planned, fork_plan, act_plan, branch_plan, loop_plan, repeat_plan, routine_plan, EndsBusy};

use rc_core::Layouts;
use rc_rlang::code::{Act, Code, Test};
use rc_rlang::steps::Step;
use rc_rlang::{act_points, branch_points, code_points, steps_points};
use std::slice;

/// Where the ways of a fork stand, and where it leads.
#[derive(Clone, Copy)]
pub struct ForkPlan {
    pub at_yes: u32,
    pub at_no: u32,
    pub yes: u32,
    pub no: u32,
}

/// Where an act stands, and where the steps before it lead.
#[derive(Clone, Copy)]
pub struct ActPlan {
    pub at_act: u32,
    pub behind: u32,
}

/// Where the parts of a branch stand, and where it leads if it is taken and if it isn't.
#[derive(Clone, Copy)]
pub struct BranchPlan {
    pub at_test: u32,
    pub at_yes: u32,
    pub at_no: u32,
    pub taken: u32,
    pub past: u32,
}

/// Where the parts of a loop stand, where its body leads back, where it begins, and where the loop's
/// point leads.
#[derive(Clone, Copy)]
pub struct LoopPlan {
    pub first: u32,
    pub at_test: u32,
    pub at_body: u32,
    pub at_third: u32,
    pub back: u32,
    pub inside: u32,
    pub entry: u32,
}

/// The same of a loop whose condition stands behind its body, and where that begins.
#[derive(Clone, Copy)]
pub struct RepeatPlan {
    pub first: u32,
    pub at_tail: u32,
    pub at_test: u32,
    pub tail: u32,
    pub entry: u32,
}

/// Where the entry of a function leads, and where its body ends.
#[derive(Clone, Copy)]
pub struct RoutinePlan {
    pub first: u32,
    pub at_end: u32,
}

/// The sum of two numbers of points: none where it is no `u32`.
fn sum(a: u32, b: u32) -> Option<u32>
    ensures { Counted result (a + b) }
{
    a.checked_add(b)
}

/// Where something with so many points begins, or what comes behind it where it has none.
fn first_of(points: u32, here: u32, next: u32) -> u32
    ensures { result ≡ first_point points here next }
{
    if points == 0 { next } else { here }
}

/// The plan of a fork that stands at a point, and behind which a next one comes: none just where the
/// point behind it is no `u32`.
pub fn plan_fork(yes: &[Step], no: &[Step], here: u32, next: u32) -> Option<ForkPlan>
    ensures { (structs : List Struct) → Planned result (suc here + steps_points (steps_of structs yes.now) + steps_points (steps_of structs no.now)) (fork_plan (steps_of structs yes.now) (steps_of structs no.now) here next) }
{
    let left = steps_points(yes)?;
    let right = steps_points(no)?;
    let at_yes = sum(1, here)?;
    let at_no = sum(at_yes, left)?;
    sum(at_no, right)?;
    Some(ForkPlan {
        at_yes,
        at_no,
        yes: first_of(left, at_yes, next),
        no: first_of(right, at_no, next),
    })
}

/// The plan of steps that stand at a point, and of the act behind them: none just where the point behind
/// it is no `u32`.
pub fn plan_act(
    layouts: &Layouts,
    steps: &[Step],
    act: &Act,
    here: u32,
    next: u32,
) -> Option<ActPlan>
    requires laid { AreLayouts layouts.now }
    ensures { (structs : List Struct) → AreLaidOut structs layouts.now → Planned result (here + steps_points (steps_of structs steps.now) + act_points (act_of structs act.now)) (act_plan (steps_of structs steps.now) (act_of structs act.now) here next) }
{
    let before = steps_points(steps)?;
    let own = act_points(layouts, act)?;
    let at_act = sum(here, before)?;
    sum(at_act, own)?;
    Some(ActPlan {
        at_act,
        behind: first_of(own, at_act, next),
    })
}

/// The plan of a branch whose steps stand at a point, and behind which a next one comes: none just where
/// the point behind it is no `u32`.
pub fn plan_branch(
    layouts: &Layouts,
    steps: &[Step],
    yes: &Code,
    no: &Code,
    here: u32,
    next: u32,
) -> Option<BranchPlan>
    requires laid { AreLayouts layouts.now }
    ensures { (structs : List Struct) → AreLaidOut structs layouts.now → Planned result (suc (here + steps_points (steps_of structs steps.now)) + code_points (code_of structs yes.now) + code_points (code_of structs no.now)) (branch_plan (steps_of structs steps.now) (code_of structs yes.now) (code_of structs no.now) here next) }
{
    let before = steps_points(steps)?;
    let left = code_points(layouts, yes)?;
    let right = code_points(layouts, no)?;
    let at_test = sum(here, before)?;
    let at_yes = sum(1, at_test)?;
    let at_no = sum(at_yes, left)?;
    sum(at_no, right)?;
    Some(BranchPlan {
        at_test,
        at_yes,
        at_no,
        taken: first_of(left, at_yes, next),
        past: first_of(right, at_no, next),
    })
}

/// The plan of a loop that stands at a point: none just where the point behind it is no `u32`.
pub fn plan_loop(
    layouts: &Layouts,
    steps: &[Step],
    test: &Option<Test>,
    third: &Code,
    body: &Code,
    here: u32,
) -> Option<LoopPlan>
    requires laid { AreLayouts layouts.now }
    ensures { (structs : List Struct) → AreLaidOut structs layouts.now → Planned result (suc here + steps_points (steps_of structs steps.now) + branch_points (option_map test_of test.now) + code_points (code_of structs body.now) + code_points (code_of structs third.now)) (loop_plan (steps_of structs steps.now) (option_map test_of test.now) (code_of structs third.now) (code_of structs body.now) here) }
{
    let before = steps_points(steps)?;
    let tests = branch_points(test);
    let inner = code_points(layouts, body)?;
    let after = code_points(layouts, third)?;
    let first = sum(1, here)?;
    let at_test = sum(first, before)?;
    let at_body = sum(at_test, tests)?;
    let at_third = sum(at_body, inner)?;
    sum(at_third, after)?;
    let back = first_of(after, at_third, here);
    let inside = first_of(inner, at_body, back);
    Some(LoopPlan {
        first,
        at_test,
        at_body,
        at_third,
        back,
        inside,
        entry: first_of(sum(before, tests)?, first, inside),
    })
}

/// The plan of a loop that stands at a point, and whose condition stands behind its body: none just where
/// the point behind it is no `u32`.
pub fn plan_repeat(layouts: &Layouts, body: &Code, steps: &[Step], here: u32) -> Option<RepeatPlan>
    requires laid { AreLayouts layouts.now }
    ensures { (structs : List Struct) → AreLaidOut structs layouts.now → Planned result (suc here + code_points (code_of structs body.now) + steps_points (steps_of structs steps.now) + 1) (repeat_plan (code_of structs body.now) (steps_of structs steps.now) here) }
{
    let inner = code_points(layouts, body)?;
    let before = steps_points(steps)?;
    let first = sum(1, here)?;
    let at_tail = sum(first, inner)?;
    let at_test = sum(at_tail, before)?;
    sum(at_test, 1)?;
    let tail = first_of(before, at_tail, at_test);
    Some(RepeatPlan {
        first,
        at_tail,
        at_test,
        tail,
        entry: first_of(inner, first, tail),
    })
}

/// The plan of a function with this body: none just where the point behind that is no `u32`. Its entry is
/// the point 0.
pub fn plan_routine(layouts: &Layouts, body: &Code) -> Option<RoutinePlan>
    requires laid { AreLayouts layouts.now }
    ensures { (structs : List Struct) → AreLaidOut structs layouts.now → Planned result (suc (code_points (code_of structs body.now))) (routine_plan (code_of structs body.now)) }
{
    let inner = code_points(layouts, body)?;
    let at_end = sum(1, inner)?;
    Some(RoutinePlan {
        first: first_of(inner, 1, at_end),
        at_end,
    })
}

/// The point behind a step that stands at a point: none where it is no `u32`.
pub fn past_step(step: &Step, here: u32) -> Option<u32>
    ensures { (structs : List Struct) → Counted result (here + step_points (step_of structs step.now)) }
{
    sum(here, steps_points(slice::from_ref(step))?)
}

/// The point behind the code of a statement that stands at a point: none where it is no `u32`.
pub fn past_code(layouts: &Layouts, code: &Code, here: u32) -> Option<u32>
    requires laid { AreLayouts layouts.now }
    ensures { (structs : List Struct) → AreLaidOut structs layouts.now → Counted result (here + code_points (code_of structs code.now)) }
{
    sum(here, code_points(layouts, code)?)
}

/// Whether the code of a statement has no point.
fn is_idle(layouts: &Layouts, code: &Code) -> bool
    requires laid { AreLayouts layouts.now }
    ensures { (structs : List Struct) → AreLaidOut structs layouts.now → result ≡ nat_eq (code_points (code_of structs code.now)) 0 }
{
    match code_points(layouts, code) {
        Some(points) => points == 0,
        None => false,
    }
}

/// How many statements there are up to the last one that has a point.
pub fn busy(layouts: &Layouts, body: &[Code]) -> usize
    requires laid { AreLayouts layouts.now }
    ensures { (structs : List Struct) → AreLaidOut structs layouts.now → EndsBusy structs body.now result }
{
    for i in (0..body.len()).rev() {
        let idle = is_idle(layouts, &body[i]);
        if !idle {
            return i + 1;
        }
    }
    0
}
