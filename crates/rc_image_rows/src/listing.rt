// An image as text, a line an instruction.
use rc_code::{Function, Instruction, Opcode, Parts};
use rc_core::ty::Signedness;
use std::alloc::{AllocError, Global};

/// A value modulo 2^32 as an `int`.
fn as_signed(value: u64) -> i128 {
    let value = i128::from(value);
    if value < 2_147_483_648 {
        value
    } else {
        value - 4_294_967_296
    }
}

/// The operands of an instruction, each behind a blank.
fn push_operands(
    alloc: Global,
    text: &mut String,
    instruction: &Instruction,
) -> Result<(), AllocError> {
    let signed = matches!(instruction.opcode(), Opcode::Constant(Signedness::Signed));
    for at in 0..usize::MAX {
        let Some(operand) = instruction.operand(at) else {
            break;
        };
        let number = if signed {
            as_signed(operand)
        } else {
            i128::from(operand)
        };
        let piece = format!(in alloc; " {number}")?;
        text.push_str(piece.as_str())?;
    }
    Ok(())
}

/// The lines of a function.
fn push_function(
    alloc: Global,
    text: &mut String,
    number: usize,
    function: &Function,
) -> Result<(), AllocError> {
    let lines = function.lines.as_slice();
    for (at, instruction) in function.code.as_slice().iter().enumerate() {
        let line = lines.get(at).copied().unwrap_or(0);
        let start = format!(in alloc; "{number} {at} {line} ")?;
        text.push_str(start.as_str())?;
        for byte in instruction.opcode().name() {
            text.push(char::from(*byte))?;
        }
        push_operands(alloc, text, instruction)?;
        text.push('\n')?;
    }
    Ok(())
}

/// The listing of an image.
pub(crate) fn listing_of(alloc: Global, parts: &Parts) -> Result<String, AllocError> {
    let mut text = String::new(alloc);
    for (number, function) in parts.functions.as_slice().iter().enumerate() {
        push_function(alloc, &mut text, number, function)?;
    }
    Ok(text)
}
