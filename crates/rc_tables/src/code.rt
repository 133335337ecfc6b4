// The types that code names.
ghost use Rattle.std.specs.Prelude.{◌≡◌, OnOk, option_map};
ghost use Rattle.rc_core.specs.Shapes.{ty_of};
ghost use Rattle.rc_emission.specs.KeptOperands.{same_type};
ghost use Rattle.rc_lines.specs.ProgramCode.{IsFunctionCode};
ghost use Rattle.rc_lines.specs.Bare.{instruction_of, lines_of};
ghost use Rattle.rc_numbering.specs.Names.{code_names, instruction_names, routine_names};
ghost use Rattle.rc_numbering.specs.Tables.{seen_behind};
ghost use Rattle.rc_rlang.specs.RegionCode.{Routine as Function, Rlang};
ghost use Rattle.rc_tables.specs.Kept.{all_types};

use crate::named_types::{add_all_pointed, add_pointed, add_result, add_with_pointed};
use crate::types::TypeTable;
use rc_base::NoMemory;
use rc_core::ty::Ty;
use rc_lines::{FunctionCode, Instruction, Line};

/// Enters the types that an instruction names.
fn add_instruction<'a>(
    types: &mut TypeTable<'a>,
    instruction: Instruction<'a>,
) -> Result<(), NoMemory>
    ensures { OnOk result (all_types types.new ≡ seen_behind same_type (all_types types.old) (instruction_names (instruction_of instruction.entry))) }
{
    match instruction {
        Instruction::Null(ty) => add_pointed(types, ty),
        Instruction::NullTest(ty) => add_pointed(types, ty),
        Instruction::Same(ty) => add_pointed(types, ty),
        Instruction::Move(ty, _, _) => add_pointed(types, ty),
        Instruction::RegionOf(ty) => add_pointed(types, ty),
        Instruction::Load(reach) => add_with_pointed(types, &reach.access.element),
        Instruction::Store(reach) => add_with_pointed(types, &reach.access.element),
        Instruction::Allocate(ty) => add_with_pointed(types, ty),
        Instruction::AllocateArray(ty) => add_with_pointed(types, ty),
        Instruction::Number(_, _)
        | Instruction::Global(_)
        | Instruction::Get(_)
        | Instruction::Set(_)
        | Instruction::Arithmetic(_, _)
        | Instruction::Unary(_, _)
        | Instruction::ZeroTest
        | Instruction::Convert(_)
        | Instruction::NewRegion
        | Instruction::NewSubregion
        | Instruction::Delete(_)
        | Instruction::Call(_, _)
        | Instruction::Leave
        | Instruction::Putchar
        | Instruction::Getchar
        | Instruction::Jump(_)
        | Instruction::JumpZero(_)
        | Instruction::Back(_)
        | Instruction::Pop => Ok(()),
    }
}

/// Enters the types that code names.
fn add_code<'a>(types: &mut TypeTable<'a>, lines: &[Line<'a>]) -> Result<(), NoMemory>
    ensures { OnOk result (all_types types.new ≡ seen_behind same_type (all_types types.old) (code_names (lines_of lines.now))) }
{
    for line in lines {
        add_instruction(types, line.instruction)?;
    }
    Ok(())
}

/// Enters what the locals of a function and its result point to, and what its code names.
pub(crate) fn add_routine<'a>(
    types: &mut TypeTable<'a>,
    result_type: &'a Option<Ty>,
    code: &'a FunctionCode<'a>,
) -> Result<(), NoMemory>
    ensures { (r : Rlang) (f : Function) → IsFunctionCode r f code.now → f.result ≡ option_map ty_of result_type.now → OnOk result (all_types types.new ≡ seen_behind same_type (all_types types.old) (routine_names r f)) }
{
    add_all_pointed(types, code.locals.as_slice())?;
    add_result(types, result_type)?;
    add_code(types, code.lines.as_slice())
}
