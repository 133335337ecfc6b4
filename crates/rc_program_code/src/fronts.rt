// Code that grows at its front.
ghost use Rattle.std.specs.Prelude.{◌≡◌, ◌+◌, ◌∷◌, ◌++◌, length, List, OnOk, IfOk};
ghost use Rattle.rc_emission.specs.OperationCode.{line_of};
ghost use Rattle.rc_emission.specs.StackCode.{Line as SpecLine, back};
ghost use Rattle.rc_lines.specs.Bare.{lines_of, instruction_of};
ghost use Rattle.rc_program_code.specs.Onward.{onward};

use rc_base::NoMemory;
use rc_lines::{Instruction, Line, push};

/// Puts an instruction in front.
pub(crate) fn put<'a>(
    out: &mut Vec<Line<'a>>,
    line: u32,
    instruction: Instruction<'a>,
) -> Result<(), NoMemory>
    ensures { OnOk result (onward out.new.items ≡ line_of line (instruction_of instruction.entry) ∷ onward out.old.items) }
{
    push(out, line, instruction)
}

/// Puts a piece of code in front.
pub(crate) fn put_piece<'a>(
    out: &mut Vec<Line<'a>>,
    mut piece: Vec<Line<'a>>,
) -> Result<(), NoMemory>
    ensures { OnOk result (onward out.new.items ≡ lines_of piece.entry.items ++ onward out.old.items) }
{
    while let Some(line) = piece.pop() {
        out.push(line)?;
    }
    Ok(())
}

/// Makes the instruction before which so many stood a step back to the front.
pub(crate) fn set_back(out: &mut Vec<Line<'_>>, line: u32, place: usize) -> Result<(), NoMemory>
    ensures { (before after : List SpecLine) (left : SpecLine) → onward out.old.items ≡ before ++ left ∷ after → length after ≡ place → OnOk result (onward out.new.items ≡ before ++ line_of line (back (length (onward out.old.items))) ∷ after) }
{
    if place >= out.len() {
        return Err(NoMemory);
    }
    let all = u32::try_from(out.len()).map_err(|_| NoMemory)?;
    out[place] = Line {
        line,
        instruction: Instruction::Back(all),
    };
    Ok(())
}

/// How many instructions there are from the front up to one from which on there are so many.
pub(crate) fn distance(out: &[Line<'_>], to: usize) -> Result<u32, NoMemory>
    ensures { IfOk result (λ n. n + to ≡ length (onward out.now)) }
{
    let over = out.len().checked_sub(to).ok_or(NoMemory)?;
    Ok(u32::try_from(over).map_err(|_| NoMemory)?)
}

/// The point that is so many before another.
pub(crate) fn before(point: u32, many: u32) -> Result<u32, NoMemory>
    ensures { IfOk result (λ n. n + many ≡ point) }
{
    Ok(point.checked_sub(many).ok_or(NoMemory)?)
}
