// The lines of an image.
ghost use Rattle.std.specs.Prelude.{◌≡◌, ◌++◌, ◌∷◌, [], codes, length, IfOk, OnOk};
ghost use Rattle.rc_code.specs.Image.{operands_of};
ghost use Rattle.rc_listing.specs.Listing.{behind_blanks, code_text, functions_text, line_text, listing, operands_text};

use rc_base::NoMemory;
use rc_code::{Function, Image, Instruction};
use rc_core::as_int;
use rc_core::ty::Signedness;
use rc_text::Text;
use std::alloc::Global;

/// Appends the operands of an instruction as they are, each behind a blank.
fn append_numbers(text: &mut Text, instruction: &Instruction) -> Result<(), NoMemory>
    ensures { OnOk result (text.new ≡ text.old ++ behind_blanks (operands_of instruction.now)) }
{
    for at in 0..usize::MAX {
        let Some(operand) = instruction.operand(at) else {
            return Ok(());
        };
        text.append_behind_blank(operand)?;
    }
    // no memory holds so many
    Err(NoMemory)
}

/// Appends the operands of an instruction, each behind a blank.
fn append_operands(text: &mut Text, instruction: &Instruction) -> Result<(), NoMemory>
    ensures { OnOk result (text.new ≡ text.old ++ operands_text instruction.now) }
{
    match instruction {
        Instruction::Constant(Signedness::Signed, value) => {
            text.append(b" ")?;
            text.append_signed(as_int(i64::from(*value)))
        }
        _ => append_numbers(text, instruction),
    }
}

/// Appends the line of an instruction.
fn append_line(
    text: &mut Text,
    function: u64,
    at: u64,
    line: u32,
    instruction: &Instruction,
) -> Result<(), NoMemory>
    ensures { OnOk result (text.new ≡ text.old ++ line_text function at line instruction.now) }
{
    text.append_with_blank(function)?;
    text.append_with_blank(at)?;
    text.append_with_blank(u64::from(line))?;
    text.append(instruction.opcode().name())?;
    append_operands(text, instruction)?;
    text.append(b"\n")
}

/// Appends the lines of a function.
fn append_function(text: &mut Text, number: u64, function: &Function) -> Result<(), NoMemory>
    requires { length function.now.lines ≡ length function.now.code }
    ensures { OnOk result (text.new ≡ text.old ++ code_text number 0 function.now.code function.now.lines) }
{
    let lines = function.lines.as_slice();
    for (at, instruction) in function.code.as_slice().iter().enumerate() {
        append_line(text, number, at as u64, lines[at], instruction)?;
    }
    Ok(())
}

/// The listing of an image: a line for each instruction, with the numbers of its function and its own,
/// its line, its name and its operands.
///
/// # Errors
///
/// Out of memory: it takes as much as the listing is long.
pub fn list(alloc: Global, image: &Image) -> Result<Vec<u8>, NoMemory>
    ensures { IfOk result (λ text. text.items ≡ listing image.now) }
{
    let mut text = Text::new(alloc);
    for (number, function) in image.parts().functions.as_slice().iter().enumerate() {
        append_function(&mut text, number as u64, function)?;
    }
    Ok(text.into_bytes())
}
