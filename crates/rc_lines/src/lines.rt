// Lists of instructions that grow at their ends.
ghost use Rattle.std.specs.Prelude.{◌≡◌, ◌∷◌, [], ◌++◌, suc, length, OnOk, IfOk};
ghost use Rattle.rc_emission.specs.OperationCode.{at, line_of};
ghost use Rattle.rc_lines.specs.declared.instruction.Instruction.TheVariants.{Pop};
ghost use Rattle.rc_lines.specs.Bare.{instruction_of, instructions_of, jump_past, lines_of};

use crate::instruction::{Instruction, Line, When};
use rc_base::NoMemory;

/// Puts an instruction that was made for a line behind the others.
pub fn push<'a>(
    out: &mut Vec<Line<'a>>,
    line: u32,
    instruction: Instruction<'a>,
) -> Result<(), NoMemory>
    ensures { OnOk result (lines_of out.new.items ≡ lines_of out.old.items ++ at line (instruction_of instruction.entry ∷ [])) }
{
    Ok(out.push(Line { line, instruction })?)
}

/// Puts instructions that were made for a line behind the others.
pub(crate) fn add<'a>(
    out: &mut Vec<Line<'a>>,
    line: u32,
    instructions: &[Instruction<'a>],
) -> Result<(), NoMemory>
    ensures { OnOk result (lines_of out.new.items ≡ lines_of out.old.items ++ at line (instructions_of instructions.now)) }
{
    for instruction in instructions {
        push(out, line, *instruction)?;
    }
    Ok(())
}

/// Leaves a place for a jump whose length isn't known yet, and answers which.
pub(crate) fn leave_place(out: &mut Vec<Line<'_>>, line: u32) -> Result<usize, NoMemory>
    ensures place { IfOk result (λ r. suc r ≡ length out.new.items) }
    ensures lines { OnOk result (lines_of out.new.items ≡ lines_of out.old.items ++ line_of line (instruction_of Pop) ∷ []) }
{
    let place = out.len();
    push(out, line, Instruction::Pop)?;
    Ok(place)
}

/// A jump past so many instructions.
fn jump<'a>(when: When, over: u32) -> Instruction<'a>
    ensures { instruction_of result ≡ jump_past when over }
{
    match when {
        When::Always => Instruction::Jump(over),
        When::IfZero => Instruction::JumpZero(over),
    }
}

/// Puts a jump past all that stands behind its place, which has been left for it.
pub(crate) fn set_jump(
    out: &mut Vec<Line<'_>>,
    line: u32,
    place: usize,
    when: When,
) -> Result<(), NoMemory>
    ensures { (before after : _) (left : _) → lines_of out.old.items ≡ before ++ (left ∷ after) → length before ≡ place → OnOk result (lines_of out.new.items ≡ before ++ (line_of line (jump_past when (length after)) ∷ after)) }
{
    if place >= out.len() {
        return Err(NoMemory);
    }
    let over = u32::try_from(out.len() - place - 1).map_err(|_| NoMemory)?;
    out[place] = Line {
        line,
        instruction: jump(when, over),
    };
    Ok(())
}
