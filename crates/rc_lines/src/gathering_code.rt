// The operands that code keeps in locals.
ghost use Rattle.std.specs.Prelude.{◌≡◌, ◌++◌, [], OnOk};
ghost use Rattle.rc_emission.specs.KeptOperands.{kept_act, kept_code, kept_codes, kept_steps};
ghost use Rattle.rc_rlang.specs.RegionFits.{steps_types};
ghost use Rattle.rc_rlang.specs.Shapes.{act_of, steps_of, code_of, codes_of};
ghost use Rattle.rc_lines.specs.Gathered.{all_kept};
ghost use Rattle.rc_lines.specs.Operands.{types_on};

use crate::gathering::{KeptOperand, gather, gather_all};
use crate::operands::Operand;
use rc_base::NoMemory;
use rc_rlang::code::{Act, Code};
use rc_rlang::steps::Step;
use std::alloc::Global;

/// Those that an act keeps, of the operands that stand.
fn gather_act<'a>(
    out: &mut Vec<KeptOperand<'a>>,
    act: &'a Act,
    operands: &[Operand<'a>],
) -> Result<(), NoMemory>
    ensures { (structs : _) → OnOk result (all_kept out.new.items ≡ all_kept out.old.items ++ kept_act (act_of structs act.now) (types_on operands.now)) }
{
    match act {
        Act::Update { .. } | Act::Move { .. } => gather_all(out, 0, operands),
        Act::Drop
        | Act::Perform { .. }
        | Act::Assign { .. }
        | Act::Store { .. }
        | Act::Delete { .. }
        | Act::Leave { .. } => Ok(()),
    }
}

/// Those that steps keep, whatever stands behind them.
fn gather_steps<'a>(
    alloc: Global,
    out: &mut Vec<KeptOperand<'a>>,
    steps: &'a [Step],
) -> Result<(), NoMemory>
    ensures { (structs : _) → OnOk result (all_kept out.new.items ≡ all_kept out.old.items ++ kept_steps (steps_of structs steps.now) 0 []) }
{
    gather(alloc, out, steps, 0)?;
    Ok(())
}

/// Those that steps keep, and behind them the act.
#[tactic(auto, using(crate::proofs::Gathers::appended))]
fn gather_simple<'a>(
    alloc: Global,
    out: &mut Vec<KeptOperand<'a>>,
    steps: &'a [Step],
    act: &'a Act,
) -> Result<(), NoMemory>
    ensures { (structs : _) → OnOk result (all_kept out.new.items ≡ all_kept out.old.items ++ (kept_steps (steps_of structs steps.now) 0 [] ++ kept_act (act_of structs act.now) (steps_types (steps_of structs steps.now) []))) }
{
    let operands = gather(alloc, out, steps, 0)?;
    gather_act(out, act, operands.as_slice())?;
    Ok(())
}

/// Those that a statement's code keeps, in the order of the definition.
#[cycle(gathering_code)]
#[tactic(auto, using(rc_rlang::proofs::ShapeRows::block_is, crate::proofs::Gathers::appended))]
pub fn gather_code<'a>(
    alloc: Global,
    out: &mut Vec<KeptOperand<'a>>,
    code: &'a Code,
) -> Result<(), NoMemory>
    ensures { (structs : _) → OnOk result (all_kept out.new.items ≡ all_kept out.old.items ++ kept_code (code_of structs code.now)) }
{
    match code {
        Code::Simple { steps, act } => gather_simple(alloc, out, steps, act)?,
        Code::Block { body } => gather_codes(alloc, out, body)?,
        Code::Branch { steps, yes, no, .. } => {
            gather_steps(alloc, out, steps)?;
            gather_code(alloc, out, yes)?;
            gather_code(alloc, out, no)?;
        }
        Code::Loop {
            steps,
            third,
            body,
            ..
        } => {
            gather_steps(alloc, out, steps)?;
            gather_code(alloc, out, third)?;
            gather_code(alloc, out, body)?;
        }
        Code::Repeat { body, steps, .. } => {
            gather_code(alloc, out, body)?;
            gather_steps(alloc, out, steps)?;
        }
        Code::Clear { .. } | Code::Break { .. } | Code::Continue { .. } => {}
    }
    Ok(())
}

#[cycle(gathering_code)]
fn gather_codes<'a>(
    alloc: Global,
    out: &mut Vec<KeptOperand<'a>>,
    body: &'a [Code],
) -> Result<(), NoMemory>
    ensures { (structs : _) → OnOk result (all_kept out.new.items ≡ all_kept out.old.items ++ kept_codes (codes_of structs body.now)) }
{
    for code in body {
        gather_code(alloc, out, code)?;
    }
    Ok(())
}
