// How many points region code has.
ghost use Rattle.std.specs.Prelude.{◌≡◌, ◌+◌, List, option_map};
ghost use Rattle.rc_core.specs.Laid.{AreLaidOut};
ghost use Rattle.rc_core.specs.Programs.{Struct};
ghost use Rattle.rc_core.specs.Shapes.{ty_of};
ghost use Rattle.rc_rlang.specs.Counted.{AreLayouts, Counted};
ghost use Rattle.rc_rlang.specs.Points.{change_points, conversion_points, end_points};
ghost use Rattle.rc_rlang.specs.RegionPoints.{step_points, steps_points, act_points, branch_points, code_points, codes_points};
ghost use Rattle.rc_rlang.specs.Shapes.{step_of, steps_of, act_of, test_of, code_of, codes_of};

use crate::code::{Act, Code, Test};
use crate::steps::Step;
use rc_core::stmt::Change;
use rc_core::ty::{NumberType, Ty};
use rc_core::{Layouts, type_of};

/// The sum of two numbers of points: none where it is no `u32`.
fn sum(a: u32, b: u32) -> Option<u32>
    ensures { Counted result (a + b) }
{
    a.checked_add(b)
}

/// The points of a step: none where a `u32` counts no such number.
#[cycle(steps)]
fn step_points(step: &Step) -> Option<u32>
    ensures { (structs : List Struct) → Counted result (step_points (step_of structs step.now)) }
{
    match step {
        Step::Set { .. } => Some(1),
        Step::Fork { yes, no, .. } => {
            let first = steps_points(yes.as_slice())?;
            let second = steps_points(no.as_slice())?;
            sum(sum(1, first)?, second)
        }
    }
}

/// The points of steps, those of each fork's ways among them: none where a `u32` counts no such number.
#[cycle(steps)]
#[tactic(auto, using(crate::proofs::Totals::steps_step, crate::proofs::Totals::steps_end))]
pub fn steps_points(steps: &[Step]) -> Option<u32>
    ensures { (structs : List Struct) → Counted result (steps_points (steps_of structs steps.now)) }
{
    let mut count = 0u32;
    for step in steps {
        count = sum(count, step_points(step)?)?;
    }
    Some(count)
}

fn conversion_points(from: NumberType, to: NumberType) -> u32
    ensures { result ≡ conversion_points from to }
{
    match (from, to) {
        (NumberType::Int, NumberType::Int) => 0,
        (NumberType::Unsigned, NumberType::Unsigned) => 0,
        (NumberType::Char, NumberType::Char) => 0,
        _ => 1,
    }
}

/// The points of a change of a cell.
pub fn change_points(change: Change) -> u32
    ensures { result ≡ change_points change }
{
    match change {
        Change::Compute {
            from,
            signedness,
            ..
        } => {
            let own = type_of(signedness);
            3 + conversion_points(from, own) + conversion_points(own, from)
        }
        Change::Step { .. } => 3,
    }
}

/// The points of an act: none where a `u32` counts no such number. A struct copy has two for each cell.
pub fn act_points(layouts: &Layouts, act: &Act) -> Option<u32>
    requires laid { AreLayouts layouts.now }
    ensures { (structs : List Struct) → AreLaidOut structs layouts.now → Counted result (act_points (act_of structs act.now)) }
{
    match act {
        Act::Drop => Some(0),
        Act::Perform { .. } => Some(1),
        Act::Assign { .. } => Some(1),
        Act::Store { .. } => Some(1),
        Act::Update { change, .. } => Some(change_points(*change)),
        Act::Move { structure, .. } => {
            let cells = u32::try_from(layouts.size_of(*structure)).ok()?;
            sum(cells, cells)
        }
        Act::Delete { .. } => Some(1),
        Act::Leave { .. } => Some(1),
    }
}

/// The points of a loop's condition, where it has one.
pub fn branch_points(test: &Option<Test>) -> u32
    ensures { result ≡ branch_points (option_map test_of test.now) }
{
    match test {
        None => 0,
        Some(_) => 1,
    }
}

/// The points of the code of a statement: none where a `u32` counts no such number.
#[cycle(code)]
#[tactic(auto, using(crate::proofs::CodeRows::block_is))]
pub fn code_points(layouts: &Layouts, code: &Code) -> Option<u32>
    requires laid { AreLayouts layouts.now }
    ensures { (structs : List Struct) → AreLaidOut structs layouts.now → Counted result (code_points (code_of structs code.now)) }
{
    match code {
        Code::Simple { steps, act } => {
            let first = steps_points(steps.as_slice())?;
            sum(first, act_points(layouts, act)?)
        }
        Code::Clear { .. } => Some(1),
        Code::Block { body } => codes_points(layouts, body.as_slice()),
        Code::Branch { steps, yes, no, .. } => {
            let head = sum(steps_points(steps.as_slice())?, 1)?;
            let first = code_points(layouts, yes)?;
            let second = code_points(layouts, no)?;
            sum(sum(head, first)?, second)
        }
        Code::Loop {
            steps,
            test,
            third,
            body,
            ..
        } => {
            let head = sum(1, steps_points(steps.as_slice())?)?;
            let head = sum(head, branch_points(test))?;
            let inside = code_points(layouts, body)?;
            let next = code_points(layouts, third)?;
            sum(sum(head, inside)?, next)
        }
        Code::Repeat { body, steps, .. } => {
            let inside = sum(1, code_points(layouts, body)?)?;
            let tail = steps_points(steps.as_slice())?;
            sum(sum(inside, tail)?, 1)
        }
        Code::Break { .. } => Some(1),
        Code::Continue { .. } => Some(1),
    }
}

#[cycle(code)]
#[tactic(auto, using(crate::proofs::Totals::codes_step, crate::proofs::Totals::codes_end))]
fn codes_points(layouts: &Layouts, body: &[Code]) -> Option<u32>
    requires laid { AreLayouts layouts.now }
    ensures { (structs : List Struct) → AreLaidOut structs layouts.now → Counted result (codes_points (codes_of structs body.now)) }
{
    let mut count = 0u32;
    for code in body {
        count = sum(count, code_points(layouts, code)?)?;
    }
    Some(count)
}

/// The points behind a function's body: the return, and the result where it has one.
pub fn points_behind(given: &Option<Ty>) -> u32
    ensures { result ≡ end_points (option_map ty_of given.now) }
{
    match given {
        None => 1,
        Some(_) => 2,
    }
}
