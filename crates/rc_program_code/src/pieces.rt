// The pieces of statements.
ghost use Rattle.std.specs.Prelude.{◌≡◌, ◌+◌, ◌∷◌, ◌++◌, [], length, ℕ, Bool, option_map, Some, OnOk, IfOk};
ghost use Rattle.rc_core.specs.Live.{Ways};
ghost use Rattle.rc_core.specs.Shapes.{ty_of};
ghost use Rattle.rc_emission.specs.StatementCode.{Place, line_of_step, last_line, steps_lines, exit_lines, code_lines};
ghost use Rattle.rc_rlang.specs.RegionCode as From;
ghost use Rattle.rc_rlang.specs.RegionPoints.{steps_points, act_points, code_points};
ghost use Rattle.rc_rlang.specs.Shapes.{step_of, steps_of, test_of};
ghost use Rattle.rc_lines.specs.Bare.{bare_code};
ghost use Rattle.rc_lines.specs.Over.{deleting_in, types_in, slot_in, steps_in, act_in};
ghost use Rattle.rc_program_code.specs.Onward.{onward};
ghost use Rattle.rc_program_code.specs.Placed.{StepsHeld, StepsReady, CodeHeld, CodeReady};

use crate::fronts::{before, distance, put, put_piece};
use crate::points::{act_points, steps_points};
use rc_base::NoMemory;
use rc_core::ty::Ty;
use rc_lines::{Body, Instruction, Line, act_on, exit_test, push, steps, zero};
use rc_rlang::code::{Act, Test};
use rc_rlang::steps::Step;

/// The line of a step.
fn line_of(step: &Step) -> u32
    ensures { (structs : _) → result ≡ line_of_step (step_of structs step.now) }
{
    match step {
        Step::Set { line, .. } | Step::Fork { line, .. } => *line,
    }
}

/// The line of the last step, 0 where there is none.
fn last_line(all: &[Step]) -> u32
    ensures { (structs : _) → result ≡ last_line (steps_of structs all.now) }
{
    match all.last() {
        Some(step) => line_of(step),
        None => 0,
    }
}

/// Steps, and what is done with their value, before a point. It answers the point at which they begin.
pub(crate) fn simple<'a>(
    out: &mut Vec<Line<'a>>,
    body: &Body<'a, '_>,
    all: &'a [Step],
    act: &'a Act,
    end: u32,
) -> Result<u32, NoMemory>
    requires { CodeReady body.now (From.simple (steps_in body.now all.now) (act_in body.now act.now)) end }
    ensures lines { (total : ℕ) (k : Ways) (p : Place) → CodeHeld body.now (From.simple (steps_in body.now all.now) (act_in body.now act.now)) k end → OnOk result (onward out.new.items ≡ bare_code total (code_lines (slot_in body.now) (deleting_in body.now) (types_in body.now) (From.simple (steps_in body.now all.now) (act_in body.now act.now)) k p) ++ onward out.old.items) }
    ensures point { IfOk result (λ here. here + (steps_points (steps_in body.now all.now) + act_points (act_in body.now act.now)) ≡ end) }
{
    let middle = before(end, act_points(body.layouts, act)?)?;
    let here = before(middle, steps_points(all)?)?;
    let mut piece = Vec::new(body.alloc);
    let behind = steps(&mut piece, body, all, 0, here)?;
    act_on(
        &mut piece,
        body,
        act,
        behind.operands.as_slice(),
        last_line(all),
        behind.point,
    )?;
    put_piece(out, piece)?;
    Ok(here)
}

/// The steps of a condition, before a point. It answers the point at which they begin.
pub(crate) fn head<'a>(
    out: &mut Vec<Line<'a>>,
    body: &Body<'a, '_>,
    all: &'a [Step],
    end: u32,
) -> Result<u32, NoMemory>
    requires { StepsReady body.now (steps_in body.now all.now) end }
    ensures lines { (total : ℕ) (live : ℕ → Bool) → StepsHeld body.now (steps_in body.now all.now) live end → OnOk result (onward out.new.items ≡ bare_code total (steps_lines (slot_in body.now) (deleting_in body.now) (types_in body.now) (steps_in body.now all.now) [] [] live) ++ onward out.old.items) }
    ensures point { IfOk result (λ here. here + steps_points (steps_in body.now all.now) ≡ end) }
{
    let here = before(end, steps_points(all)?)?;
    let mut piece = Vec::new(body.alloc);
    steps(&mut piece, body, all, 0, here)?;
    put_piece(out, piece)?;
    Ok(here)
}

/// Where a branch is decided, and not taken to where there are so many instructions up to the end.
pub(crate) fn exit<'a>(
    out: &mut Vec<Line<'a>>,
    body: &Body<'a, '_>,
    test: &'a Test,
    to: usize,
) -> Result<(), NoMemory>
    ensures { (total over : ℕ) → over + to ≡ length (onward out.old.items) → OnOk result (onward out.new.items ≡ bare_code total (exit_lines (Some (test_of test.now)) over) ++ onward out.old.items) }
{
    let over = distance(out.as_slice(), to)?;
    let mut piece = Vec::new(body.alloc);
    exit_test(&mut piece, test)?;
    push(&mut piece, test.line, Instruction::JumpZero(over))?;
    put_piece(out, piece)
}

/// Out of a loop, where it has a condition.
pub(crate) fn exit_if<'a>(
    out: &mut Vec<Line<'a>>,
    body: &Body<'a, '_>,
    test: &'a Option<Test>,
    to: usize,
) -> Result<(), NoMemory>
    ensures { (total over : ℕ) → over + to ≡ length (onward out.old.items) → OnOk result (onward out.new.items ≡ bare_code total (exit_lines (option_map test_of test.now) over) ++ onward out.old.items) }
{
    match test {
        None => Ok(()),
        Some(test) => exit(out, body, test, to),
    }
}

/// A local becomes zero or null.
pub(crate) fn clear<'a>(
    out: &mut Vec<Line<'a>>,
    body: &Body<'a, '_>,
    line: u32,
    local: u32,
    ty: &'a Ty,
) -> Result<(), NoMemory>
    ensures { (total : ℕ) (k : Ways) (p : Place) → OnOk result (onward out.new.items ≡ bare_code total (code_lines (slot_in body.now) (deleting_in body.now) (types_in body.now) (From.clear line local (ty_of ty.now)) k p) ++ onward out.old.items) }
{
    let mut piece = Vec::new(body.alloc);
    zero(&mut piece, line, ty)?;
    push(&mut piece, line, Instruction::Set(local))?;
    put_piece(out, piece)
}
