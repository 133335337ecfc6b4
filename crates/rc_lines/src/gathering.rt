// The operands that steps keep in locals.
ghost use Rattle.std.specs.Prelude.{◌≡◌, ◌++◌, ◌∷◌, ◌+◌, ◌<◌, suc, [], length, OnOk, IfOk};
ghost use Rattle.rc_core.specs.Programs.{Struct};
ghost use Rattle.rc_core.specs.Shapes.{ty_of};
ghost use Rattle.rc_emission.specs.KeptOperands.{kept_at, kept_operands, kept_operation, kept_step, kept_steps};
ghost use Rattle.rc_rlang.specs.RegionFits.{steps_types};
ghost use Rattle.rc_rlang.specs.Shapes.{operation_of, step_of, steps_of};
ghost use Rattle.rc_lines.specs.Gathered.{all_kept};
ghost use Rattle.rc_lines.specs.Operands.{types_on};

use crate::operands::{Operand, give, taken};
use rc_base::NoMemory;
use rc_core::ty::Ty;
use rc_rlang::steps::{Operation, Step};
use std::alloc::Global;

/// An operand that is kept in a local.
#[derive(Clone, Copy)]
pub struct KeptOperand<'a> {
    pub height: usize,
    pub ty: &'a Ty,
}

fn enter<'a>(out: &mut Vec<KeptOperand<'a>>, height: usize, ty: &'a Ty) -> Result<(), NoMemory>
    ensures { OnOk result (all_kept out.new.items ≡ all_kept out.old.items ++ kept_at height (ty_of ty.now) ∷ []) }
{
    Ok(out.push(KeptOperand { height, ty })?)
}

/// The operands that stand, from the top; the lowest has the height `base`.
pub(crate) fn gather_all<'a>(
    out: &mut Vec<KeptOperand<'a>>,
    base: usize,
    operands: &[Operand<'a>],
) -> Result<(), NoMemory>
    ensures { OnOk result (all_kept out.new.items ≡ all_kept out.old.items ++ kept_operands base (types_on operands.now)) }
{
    let mut left = operands.len();
    while left > 0 {
        left -= 1;
        let height = base.checked_add(left).ok_or(NoMemory)?;
        enter(out, height, operands[left].ty)?;
    }
    Ok(())
}

/// Those that an operation exchanges, of which the lower one has the height.
fn gather_operation<'a>(
    out: &mut Vec<KeptOperand<'a>>,
    height: u32,
    operation: &'a Operation,
) -> Result<(), NoMemory>
    ensures { (structs : _) → OnOk result (all_kept out.new.items ≡ all_kept out.old.items ++ kept_operation height (operation_of structs operation.now)) }
{
    match operation {
        Operation::StepFrom { number, pointer } => {
            let height = height as usize;
            enter(out, height, number)?;
            enter(out, height + 1, pointer)
        }
        Operation::Constant { .. }
        | Operation::Null
        | Operation::Static { .. }
        | Operation::Copy { .. }
        | Operation::Load { .. }
        | Operation::Step { .. }
        | Operation::Unary { .. }
        | Operation::Binary { .. }
        | Operation::Convert { .. }
        | Operation::NotZero { .. }
        | Operation::Truth { .. }
        | Operation::IsNull { .. }
        | Operation::Same { .. }
        | Operation::Call { .. }
        | Operation::NewRegion
        | Operation::NewSubregion
        | Operation::RegionOf { .. }
        | Operation::Allocate { .. }
        | Operation::AllocateArray { .. }
        | Operation::Putchar
        | Operation::Getchar => Ok(()),
    }
}

/// Those that steps keep, in their order; the lowest operand that they leave has the height `base`. It
/// answers what stands behind them.
#[cycle(gathering)]
pub fn gather<'a>(
    alloc: Global,
    out: &mut Vec<KeptOperand<'a>>,
    steps: &'a [Step],
    base: usize,
) -> Result<Vec<Operand<'a>>, NoMemory>
    ensures kept { (structs : _) → OnOk result (all_kept out.new.items ≡ all_kept out.old.items ++ kept_steps (steps_of structs steps.now) base []) }
    ensures types { (structs : _) → IfOk result (λ r. types_on r.items ≡ steps_types (steps_of structs steps.now) []) }
{
    let mut operands = Vec::new(alloc);
    for step in steps {
        match step {
            Step::Set {
                temporary,
                ty,
                operation,
                ..
            } => {
                gather_operation(out, *temporary, operation)?;
                give(&mut operands, taken(operation), ty)?;
            }
            Step::Fork { result, .. } => {
                if operands.is_empty() {
                    return Err(NoMemory);
                }
                gather_fork(alloc, out, step, operands.as_slice(), base)?;
                give(&mut operands, 1, result)?;
            }
        }
    }
    Ok(operands)
}

/// Those that a fork and its two ways keep, where these operands stand.
#[cycle(gathering)]
fn gather_fork<'a>(
    alloc: Global,
    out: &mut Vec<KeptOperand<'a>>,
    step: &'a Step,
    operands: &[Operand<'a>],
    base: usize,
) -> Result<(), NoMemory>
    ensures { (structs : _) → OnOk result (all_kept out.new.items ≡ all_kept out.old.items ++ kept_step (step_of structs step.now) base (types_on operands.now)) }
{
    let Step::Fork {
        temporary,
        result,
        yes,
        no,
        ..
    } = step
    else {
        return Err(NoMemory);
    };
    let height = *temporary as usize;
    gather_all(out, base, operands)?;
    enter(out, height, result)?;
    gather(alloc, out, yes, height)?;
    gather(alloc, out, no, height)?;
    Ok(())
}
