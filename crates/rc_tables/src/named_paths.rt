// The paths that code names.
ghost use Rattle.std.specs.Prelude.{◌≡◌, ◌∷◌, [], OnOk, IfOk};
ghost use Rattle.rc_lines.specs.ProgramCode.{IsProgramCode};
ghost use Rattle.rc_lines.specs.Bare.{instruction_of, lines_of, reach_of};
ghost use Rattle.rc_tables.specs.Numbers.{number_in};
ghost use Rattle.rc_numbering.specs.Names.{code_paths, instruction_paths, path_of, paths_of, same_path, types_of};
ghost use Rattle.rc_numbering.specs.Numbered.{type_in};
ghost use Rattle.rc_numbering.specs.Tables.{seen_behind};
ghost use Rattle.rc_rlang.specs.RegionCode.{Rlang};
ghost use Rattle.rc_tables.specs.Kept.{all_types};

use crate::paths::{PathTable, path};
use crate::types::TypeTable;
use rc_base::NoMemory;
use rc_lines::{FunctionCode, Instruction, Line, Reach};
use std::alloc::Global;

/// Enters the path to a cell.
fn add_reach(
    alloc: Global,
    paths: &mut PathTable,
    types: &TypeTable<'_>,
    reach: Reach<'_>,
) -> Result<(), NoMemory>
    ensures { OnOk result (paths.new ≡ seen_behind same_path paths.old (path_of (number_in types.now) (reach_of reach.entry) ∷ [])) }
{
    let type_number = types.number(&reach.access.element)?;
    paths.add(path(alloc, type_number, reach)?)
}

/// Enters the path that an instruction names.
fn add_instruction(
    alloc: Global,
    paths: &mut PathTable,
    types: &TypeTable<'_>,
    instruction: Instruction<'_>,
) -> Result<(), NoMemory>
    ensures { OnOk result (paths.new ≡ seen_behind same_path paths.old (instruction_paths (number_in types.now) (instruction_of instruction.entry))) }
{
    match instruction {
        Instruction::Load(reach) => add_reach(alloc, paths, types, reach),
        Instruction::Store(reach) => add_reach(alloc, paths, types, reach),
        Instruction::Number(_, _)
        | Instruction::Null(_)
        | Instruction::Global(_)
        | Instruction::Get(_)
        | Instruction::Set(_)
        | Instruction::Arithmetic(_, _)
        | Instruction::Unary(_, _)
        | Instruction::ZeroTest
        | Instruction::NullTest(_)
        | Instruction::Same(_)
        | Instruction::Convert(_)
        | Instruction::Move(_, _, _)
        | Instruction::NewRegion
        | Instruction::NewSubregion
        | Instruction::RegionOf(_)
        | Instruction::Allocate(_)
        | Instruction::AllocateArray(_)
        | Instruction::Delete(_)
        | Instruction::Call(_, _)
        | Instruction::Leave
        | Instruction::Putchar
        | Instruction::Getchar
        | Instruction::Jump(_)
        | Instruction::JumpZero(_)
        | Instruction::Back(_)
        | Instruction::Pop => Ok(()),
    }
}

/// Enters the paths that code names.
fn add_code(
    alloc: Global,
    paths: &mut PathTable,
    types: &TypeTable<'_>,
    lines: &[Line<'_>],
) -> Result<(), NoMemory>
    ensures { OnOk result (paths.new ≡ seen_behind same_path paths.old (code_paths (number_in types.now) (lines_of lines.now))) }
{
    for line in lines {
        add_instruction(alloc, paths, types, line.instruction)?;
    }
    Ok(())
}

/// The paths that a program names, each at its number, where the table has the types that it names.
///
/// # Errors
///
/// Out of memory, more paths than 32 bits can number, or a cell whose place doesn't fit 32 bits.
pub fn program_paths(
    alloc: Global,
    types: &TypeTable<'_>,
    functions: &[FunctionCode<'_>],
) -> Result<PathTable, NoMemory>
    ensures { (r : Rlang) → IsProgramCode r functions.now → all_types types.now ≡ types_of r → IfOk result (λ p. p ≡ paths_of (type_in r) r) }
{
    let mut paths = PathTable::new(alloc);
    for function in functions {
        add_code(alloc, &mut paths, types, function.lines.as_slice())?;
    }
    Ok(paths)
}
