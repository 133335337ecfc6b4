// Expressions: steps one after another, and those that fork.
ghost use Rattle.std.specs.Prelude.{◌≡◌, ◌++◌, ◌∷◌, ◌+◌, ◌≤◌, ◌<◌, [], suc, length, List, OnOk, IfOk};
ghost use Rattle.rc_core.specs.Shapes.{ty_of};
ghost use Rattle.rc_core.specs.Types.{int};
ghost use Rattle.rc_emission.specs.OperationCode.{at, line_of, spills, reloads, test_code};
ghost use Rattle.rc_emission.specs.StackCode.{get, set, jump, jump_zero, pop};
ghost use Rattle.rc_emission.specs.StatementCode.{steps_lines, step_lines};
ghost use Rattle.rc_rlang.specs.LiveLists.{steps_lists, step_lists};
ghost use Rattle.rc_rlang.specs.RegionFits.{steps_types};
ghost use Rattle.rc_rlang.specs.RegionPoints.{steps_points, step_points};
ghost use Rattle.rc_lines.specs.Bare.{bare_code, lines_of};
ghost use Rattle.rc_lines.specs.Operands.{types_on};
ghost use Rattle.rc_lines.specs.Over.{deleting_in, types_in, slot_in, steps_in, step_in, Listed, StepsListed, StepListed};

use crate::body::Body;
use crate::instruction::{Instruction, Line, When};
use crate::lines::{leave_place, push, set_jump};
use crate::operands::{Operand, bring_back, give, keep, taken};
use crate::operations::{Spot, operation, test};
use rc_base::NoMemory;
use rc_core::ty::Ty;
use rc_rlang::steps::Step;

/// What stands behind steps: the operands, and the number of the point.
#[derive(Drop)]
pub struct Behind<'a> {
    pub operands: Vec<Operand<'a>>,
    pub point: u32,
}

/// The next point.
fn next(point: u32) -> Result<u32, NoMemory>
    ensures { IfOk result (λ r. r ≡ point + 1) }
{
    Ok(point.checked_add(1).ok_or(NoMemory)?)
}

/// Steps, of which the first has the point. The lowest operand that they leave has the height `base`.
#[cycle(steps)]
pub fn steps<'a>(
    out: &mut Vec<Line<'a>>,
    body: &Body<'a, '_>,
    steps: &'a [Step],
    base: usize,
    point: u32,
) -> Result<Behind<'a>, NoMemory>
    requires listed { StepsListed body.now steps.now point }
    ensures lines { (saved : _) (live : _) → length saved ≡ base → Listed body.now.live.now (steps_lists (deleting_in body.now) (types_in body.now) (steps_in body.now steps.now) point live) → OnOk result (lines_of out.new.items ≡ lines_of out.old.items ++ bare_code 0 (steps_lines (slot_in body.now) (deleting_in body.now) (types_in body.now) (steps_in body.now steps.now) saved [] live)) }
    ensures types { IfOk result (λ r. types_on r.operands.items ≡ steps_types (steps_in body.now steps.now) []) }
    ensures point { IfOk result (λ r. r.point ≡ point + steps_points (steps_in body.now steps.now)) }
{
    let mut operands = Vec::new(body.alloc);
    let mut here = point;
    for step in steps {
        match step {
            Step::Set {
                line,
                temporary,
                ty,
                operation,
            } => {
                let spot = Spot {
                    line: *line,
                    temporary: *temporary,
                    point: here,
                };
                self::operation(out, body, spot, ty, operation)?;
                give(&mut operands, taken(operation), ty)?;
                here = next(here)?;
            }
            Step::Fork { result, .. } => {
                here = two_ways(out, body, step, operands.as_slice(), base, here)?;
                give(&mut operands, 1, result)?;
            }
        }
    }
    Ok(Behind {
        operands,
        point: here,
    })
}

/// The height of the topmost of so many operands, of which there has to be one; the lowest has the height
/// `base`.
fn top_height(base: usize, count: usize) -> Result<usize, NoMemory>
    ensures height { IfOk result (λ r. suc r ≡ base + count) }
    ensures some { OnOk result (1 ≤ count) }
    ensures within { OnOk result (base + count < 18446744073709551616) }
{
    if count == 0 {
        return Err(NoMemory);
    }
    let end = base.checked_add(count).ok_or(NoMemory)?;
    Ok(end - 1)
}

/// The operands go into their locals, and the topmost is tested. It answers the place that is left for
/// the jump past the way that is gone where it is true.
fn look<'a>(
    out: &mut Vec<Line<'a>>,
    body: &Body<'a, '_>,
    line: u32,
    base: usize,
    operands: &[Operand<'a>],
    ty: &'a Ty,
) -> Result<usize, NoMemory>
    requires some { 1 ≤ length operands.now }
    requires within { base + length operands.now < 18446744073709551616 }
    ensures lines { (top : _) (below : _) → types_on operands.now ≡ top ∷ below → OnOk result (lines_of out.new.items ≡ (lines_of out.old.items ++ bare_code 0 (at line (spills (slot_in body.now) base (top ∷ below)) ++ at line (get (slot_in body.now (base + length below) top) ∷ test_code (ty_of ty.now)))) ++ line_of line pop ∷ []) }
    ensures place { IfOk result (λ r. suc r ≡ length out.new.items) }
{
    keep(out, body, line, base, operands)?;
    let top = operands.len() - 1;
    let kept = body.slot(base + top, operands[top].ty)?;
    push(out, line, Instruction::Get(kept))?;
    test(out, line, ty)?;
    leave_place(out, line)
}

/// The value of the first way goes into its local, and the jump past that way is set. It answers the
/// place that is left for the jump past the second.
fn turn(out: &mut Vec<Line<'_>>, line: u32, given: u32, to_no: usize) -> Result<usize, NoMemory>
    ensures lines { (before after : _) (left : _) → lines_of out.old.items ≡ before ++ (left ∷ after) → length before ≡ to_no → OnOk result (lines_of out.new.items ≡ (before ++ (line_of line (jump_zero (suc (suc (length after)))) ∷ (after ++ line_of line (set given int) ∷ []))) ++ line_of line pop ∷ []) }
    ensures place { (before after : _) (left : _) → lines_of out.old.items ≡ before ++ (left ∷ after) → length before ≡ to_no → IfOk result (λ r. suc r ≡ length out.new.items) }
{
    push(out, line, Instruction::Set(given))?;
    let to_end = leave_place(out, line)?;
    set_jump(out, line, to_no, When::IfZero)?;
    Ok(to_end)
}

/// Where the ways of a fork meet: the local for its value, and the place of the jump past the second.
#[derive(Clone, Copy)]
struct Joined {
    given: u32,
    to_end: usize,
}

/// The value of the second way goes into its local, the jump past that way is set, and what stands below
/// the value comes back, and the value itself.
fn join<'a>(
    out: &mut Vec<Line<'a>>,
    body: &Body<'a, '_>,
    line: u32,
    base: usize,
    below: &[Operand<'a>],
    joined: Joined,
) -> Result<(), NoMemory>
    requires { base + length below.now < 18446744073709551616 }
    ensures { (before after : _) (left : _) → lines_of out.old.items ≡ before ++ (left ∷ after) → length before ≡ joined.to_end → OnOk result (lines_of out.new.items ≡ before ++ (line_of line (jump (suc (length after))) ∷ (after ++ (line_of line (set joined.given int) ∷ (bare_code 0 (at line (reloads (slot_in body.now) base (types_on below.now))) ++ line_of line (get joined.given) ∷ []))))) }
{
    push(out, line, Instruction::Set(joined.given))?;
    set_jump(out, line, joined.to_end, When::Always)?;
    bring_back(out, body, line, base, below)?;
    push(out, line, Instruction::Get(joined.given))
}

/// A fork with its two ways, whose operands on the stack are these; the lowest has the height `base`. It
/// answers the point behind them.
#[cycle(steps)]
fn two_ways<'a>(
    out: &mut Vec<Line<'a>>,
    body: &Body<'a, '_>,
    step: &'a Step,
    operands: &[Operand<'a>],
    base: usize,
    point: u32,
) -> Result<u32, NoMemory>
    requires listed { StepListed body.now step.now point }
    ensures lines { (saved : _) (live : _) → length saved ≡ base → Listed body.now.live.now (step_lists (deleting_in body.now) (types_in body.now) (step_in body.now step.now) point live) → OnOk result (lines_of out.new.items ≡ lines_of out.old.items ++ bare_code 0 (step_lines (slot_in body.now) (deleting_in body.now) (types_in body.now) (step_in body.now step.now) saved (types_on operands.now) live)) }
    ensures point { IfOk result (λ r. r ≡ point + step_points (step_in body.now step.now)) }
    ensures some { OnOk result (1 ≤ length operands.now) }
{
    let Step::Fork {
        line,
        test,
        result,
        yes,
        no,
        ..
    } = step
    else {
        return Err(NoMemory);
    };
    let line = *line;
    let height = top_height(base, operands.len())?;
    let given = body.slot(height, result)?;
    let to_no = look(out, body, line, base, operands, test)?;
    let behind_yes = steps(out, body, yes, height, next(point)?)?.point;
    let to_end = turn(out, line, given, to_no)?;
    let behind_no = steps(out, body, no, height, behind_yes)?.point;
    let below = &operands[..operands.len() - 1];
    join(out, body, line, base, below, Joined { given, to_end })?;
    Ok(behind_no)
}
