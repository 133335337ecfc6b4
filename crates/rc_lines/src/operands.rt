// The operands that stand on the stack.
ghost use Rattle.std.specs.Prelude.{◌≡◌, ◌∷◌, ◌++◌, ◌+◌, ◌<◌, length, OnOk};
ghost use Rattle.rc_core.specs.Shapes.{ty_of};
ghost use Rattle.rc_emission.specs.OperationCode.{at, spills, reloads};
ghost use Rattle.rc_rlang.specs.RegionCode.{width};
ghost use Rattle.rc_rlang.specs.RegionFits.{operands, dropped};
ghost use Rattle.rc_rlang.specs.Shapes.{access_of, operation_of};
ghost use Rattle.rc_lines.specs.Bare.{bare_all, lines_of};
ghost use Rattle.rc_lines.specs.Operands.{types_on};
ghost use Rattle.rc_lines.specs.Over.{slot_in};

use crate::body::Body;
use crate::instruction::{Instruction, Line};
use crate::lines::push;
use rc_base::NoMemory;
use rc_core::ty::Ty;
use rc_rlang::access::Access;
use rc_rlang::steps::Operation;

/// An operand that stands on the stack.
#[derive(Clone, Copy)]
pub struct Operand<'a> {
    pub ty: &'a Ty,
}

/// How many operands an access takes: the pointer, the number by which it is stepped, and the indices.
pub(crate) fn width(access: &Access) -> usize
    ensures { result ≡ width (access_of access.now) }
{
    let shift = match access.shift {
        None => 0,
        Some(_) => 1,
    };
    1 + shift + access.indices.len()
}

/// How many operands an operation takes.
pub(crate) fn taken(operation: &Operation) -> usize
    ensures { (structs : _) (ty : _) → result ≡ length (operands ty (operation_of structs operation.now)) }
{
    match operation {
        Operation::Load { access } => width(access),
        Operation::Call { parameters, .. } => parameters.len(),
        Operation::Step { .. }
        | Operation::StepFrom { .. }
        | Operation::Binary { .. }
        | Operation::Same { .. }
        | Operation::AllocateArray { .. } => 2,
        Operation::Unary { .. }
        | Operation::Convert { .. }
        | Operation::NotZero { .. }
        | Operation::Truth { .. }
        | Operation::IsNull { .. }
        | Operation::NewSubregion
        | Operation::RegionOf { .. }
        | Operation::Allocate { .. }
        | Operation::Putchar => 1,
        Operation::Constant { .. }
        | Operation::Null
        | Operation::Static { .. }
        | Operation::Copy { .. }
        | Operation::NewRegion
        | Operation::Getchar => 0,
    }
}

/// So many operands are taken from the top, and one of a type comes in their place.
pub(crate) fn give<'a>(
    operands: &mut Vec<Operand<'a>>,
    count: usize,
    ty: &'a Ty,
) -> Result<(), NoMemory>
    ensures { OnOk result (types_on operands.new.items ≡ ty_of ty.now ∷ dropped count (types_on operands.old.items)) }
{
    let left = operands.len().saturating_sub(count);
    operands.truncate(left);
    Ok(operands.push(Operand { ty })?)
}

/// The operands go into their locals, from the top; the lowest has the height `base`.
pub(crate) fn keep<'a>(
    out: &mut Vec<Line<'a>>,
    body: &Body<'a, '_>,
    line: u32,
    base: usize,
    operands: &[Operand<'a>],
) -> Result<(), NoMemory>
    requires { base + length operands.now < 18446744073709551616 }
    ensures { OnOk result (lines_of out.new.items ≡ lines_of out.old.items ++ at line (bare_all (spills (slot_in body.now) base (types_on operands.now)))) }
{
    let mut left = operands.len();
    while left > 0 {
        left -= 1;
        let local = body.slot(base + left, operands[left].ty)?;
        push(out, line, Instruction::Set(local))?;
    }
    Ok(())
}

/// The operands come back from their locals, the lowest first, which has the height `base`.
pub(crate) fn bring_back<'a>(
    out: &mut Vec<Line<'a>>,
    body: &Body<'a, '_>,
    line: u32,
    base: usize,
    operands: &[Operand<'a>],
) -> Result<(), NoMemory>
    requires { base + length operands.now < 18446744073709551616 }
    ensures { OnOk result (lines_of out.new.items ≡ lines_of out.old.items ++ at line (bare_all (reloads (slot_in body.now) base (types_on operands.now)))) }
{
    let mut height = base;
    for operand in operands {
        let local = body.slot(height, operand.ty)?;
        push(out, line, Instruction::Get(local))?;
        height += 1;
    }
    Ok(())
}
