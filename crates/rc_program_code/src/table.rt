// The table of what a function keeps in locals.
ghost use Rattle.std.specs.Prelude.{◌≡◌, ◌++◌, List, map, IfOk};
ghost use Rattle.rc_core.specs.Programs.{Struct};
ghost use Rattle.rc_core.specs.Shapes.{ty_of};
ghost use Rattle.rc_emission.specs.KeptOperands.{same_kept, once, kept_code};
ghost use Rattle.rc_emission.specs.OperationCode.{wide};
ghost use Rattle.rc_rlang.specs.Shapes.{code_of};
ghost use Rattle.rc_lines.specs.Gathered.{all_kept};
ghost use Rattle.rc_program_code.specs.Numbering.{Numbers, wide_of};

use crate::entering::{each_once, keys_of};
use rc_base::NoMemory;
use rc_core::cells::copy_of;
use rc_core::ty::Ty;
use rc_lines::{KeptOperand, gather_code};
use rc_rlang::code::Code;
use rc_scope::Names;
use std::alloc::Global;

/// The operands that code keeps in locals, each once, and their keys, each at its operand's place.
#[derive(Drop)]
pub struct KeptTable<'a> {
    pub operands: Vec<KeptOperand<'a>>,
    pub keys: Names,
}

/// The table of what a function's code keeps.
///
/// # Errors
///
/// Out of memory, which is also said where there are more than a `u32` counts.
pub fn kept_by<'a>(alloc: Global, code: &'a Code) -> Result<KeptTable<'a>, NoMemory>
    ensures operands { (structs : List Struct) → IfOk result (λ table. all_kept table.operands.items ≡ once same_kept (kept_code (code_of structs code.now))) }
    ensures keys { (structs : List Struct) → IfOk result (λ table. Numbers table.keys (kept_code (code_of structs code.now))) }
{
    let mut kept = Vec::new(alloc);
    gather_code(alloc, &mut kept, code)?;
    let operands = each_once(alloc, kept.as_slice())?;
    let keys = keys_of(alloc, operands.as_slice())?;
    Ok(KeptTable { operands, keys })
}

/// The type of the local for an operand: one that keeps a `char` is an `int`.
fn wide_type(alloc: Global, ty: &Ty) -> Result<Ty, NoMemory>
    ensures { IfOk result (λ t. ty_of t ≡ wide (ty_of ty.now)) }
{
    match ty {
        Ty::Char => Ok(Ty::Int),
        _ => copy_of(alloc, ty),
    }
}

/// The types of a function's own locals, and behind them those of the locals that keep operands.
///
/// # Errors
///
/// Out of memory.
pub fn local_types(alloc: Global, own: &[Ty], kept: &[KeptOperand<'_>]) -> Result<Vec<Ty>, NoMemory>
    ensures { IfOk result (λ types. map ty_of types.items ≡ map ty_of own.now ++ map wide_of (all_kept kept.now)) }
{
    let mut types = Vec::new(alloc);
    for ty in own {
        types.push(copy_of(alloc, ty)?)?;
    }
    for operand in kept {
        types.push(wide_type(alloc, operand.ty)?)?;
    }
    Ok(types)
}
