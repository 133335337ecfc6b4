// Instructions.
ghost use Rattle.std.specs.Prelude.{◌≡◌, ◌∷◌, ◌++◌, length, OnOk};
ghost use Rattle.rc_code.specs.Image.{direction_number, bit as bit_number, operands_of};
ghost use Rattle.rc_fields.specs.Spelling.{number, numbers, counted};
ghost use Rattle.rc_image.specs.Spelling.{instruction_bytes};
ghost use Rattle.rc_fields.specs.Reading.{Gives, many, counted_at};
ghost use Rattle.rc_image.specs.Reading.{direction_at, bit_at, pins_at, move_at, store_at, call_at, operands_at, instruction_at};

use rc_code::{Instruction, Opcode, Pins};
use rc_core::operators::Direction;
use rc_fields::{
    Stop, read_kind, read_number, read_numbers, write_kind, write_number, write_numbers,
};
use std::alloc::{AllocError, Global};

/// Reads a direction.
#[tactic(auto, unfolding(crate::specs::Reading::direction_at))]
fn read_direction(bytes: &[u8]) -> Result<(Direction, &[u8]), Stop>
    ensures { Gives (λ x. (x.0, x.1.now)) result (direction_at bytes.now) }
{
    let (number, rest) = read_number(bytes)?;
    match number {
        0 => Ok((Direction::Forward, rest)),
        1 => Ok((Direction::Backward, rest)),
        _ => Err(Stop::Field(bytes.len())),
    }
}

/// Reads 0 or 1.
#[tactic(auto, unfolding(crate::specs::Reading::bit_at))]
fn read_bit(bytes: &[u8]) -> Result<(bool, &[u8]), Stop>
    ensures { Gives (λ x. (x.0, x.1.now)) result (bit_at bytes.now) }
{
    let (number, rest) = read_number(bytes)?;
    match number {
        0 => Ok((false, rest)),
        1 => Ok((true, rest)),
        _ => Err(Stop::Field(bytes.len())),
    }
}

/// Reads how many locals are pinned, and these.
#[tactic(auto, unfolding(rc_fields::specs::Reading::counted_at))]
fn read_pins(alloc: Global, bytes: &[u8]) -> Result<(Pins, &[u8]), Stop>
    ensures { Gives (λ x. (x.0, x.1.now)) result (pins_at bytes.now) }
{
    let (count, rest) = read_number(bytes)?;
    let (pins, rest) = read_numbers(alloc, count as usize, rest)?;
    Ok((Pins::new(alloc, pins)?, rest))
}

fn read_move(bytes: &[u8]) -> Result<(Instruction, &[u8]), Stop>
    ensures { Gives (λ x. (x.0, x.1.now)) result (move_at bytes.now) }
{
    let (type_number, rest) = read_number(bytes)?;
    let (kind, rest) = read_kind(rest)?;
    let (direction, rest) = read_direction(rest)?;
    Ok((Instruction::Move(type_number, kind, direction), rest))
}

fn read_store(bytes: &[u8]) -> Result<(Instruction, &[u8]), Stop>
    ensures { Gives (λ x. (x.0, x.1.now)) result (store_at bytes.now) }
{
    let (path, rest) = read_number(bytes)?;
    let (proved, rest) = read_bit(rest)?;
    Ok((Instruction::Store(path, proved), rest))
}

fn read_call(alloc: Global, bytes: &[u8]) -> Result<(Instruction, &[u8]), Stop>
    ensures { Gives (λ x. (x.0, x.1.now)) result (call_at bytes.now) }
{
    let (function, rest) = read_number(bytes)?;
    let (pins, rest) = read_pins(alloc, rest)?;
    Ok((Instruction::Call(function, pins), rest))
}

/// Reads the operands of an instruction.
fn read_operands(alloc: Global, opcode: Opcode, bytes: &[u8]) -> Result<(Instruction, &[u8]), Stop>
    ensures { Gives (λ x. (x.0, x.1.now)) result (operands_at opcode bytes.now) }
{
    match opcode {
        Opcode::Move => read_move(bytes),
        Opcode::Store => read_store(bytes),
        Opcode::Simple(simple) => Ok((Instruction::Simple(simple), bytes)),
        Opcode::Call => read_call(alloc, bytes),
        Opcode::Delete => {
            let (pins, rest) = read_pins(alloc, bytes)?;
            Ok((Instruction::Delete(pins), rest))
        }
        Opcode::Arithmetic(arithmetic) => {
            let (kind, rest) = read_kind(bytes)?;
            Ok((Instruction::Arithmetic(arithmetic, kind), rest))
        }
        Opcode::Constant(kind) => {
            let (value, rest) = read_number(bytes)?;
            Ok((Instruction::Constant(kind, value), rest))
        }
        Opcode::Global => {
            let (number, rest) = read_number(bytes)?;
            Ok((Instruction::Global(number), rest))
        }
        Opcode::Get => {
            let (number, rest) = read_number(bytes)?;
            Ok((Instruction::Get(number), rest))
        }
        Opcode::Set => {
            let (number, rest) = read_number(bytes)?;
            Ok((Instruction::Set(number), rest))
        }
        Opcode::Load => {
            let (number, rest) = read_number(bytes)?;
            Ok((Instruction::Load(number), rest))
        }
        Opcode::Typed(typed) => {
            let (number, rest) = read_number(bytes)?;
            Ok((Instruction::Typed(typed, number), rest))
        }
        Opcode::Jump(jump) => {
            let (number, rest) = read_number(bytes)?;
            Ok((Instruction::Jump(jump, number), rest))
        }
    }
}

/// Reads an instruction.
#[tactic(auto, unfolding(crate::specs::Reading::instruction_at))]
fn read_instruction(alloc: Global, bytes: &[u8]) -> Result<(Instruction, &[u8]), Stop>
    ensures { Gives (λ x. (x.0, x.1.now)) result (instruction_at bytes.now) }
{
    let (number, rest) = read_number(bytes)?;
    match Opcode::numbered(number) {
        Some(opcode) => read_operands(alloc, opcode, rest),
        None => Err(Stop::Field(bytes.len())),
    }
}

/// Reads so many instructions.
fn read_instruction_list(
    alloc: Global,
    count: u32,
    bytes: &[u8],
) -> Result<(Vec<Instruction>, &[u8]), Stop>
    ensures { Gives (λ x. (x.0.items, x.1.now)) result (many instruction_at count bytes.now) }
{
    let mut items = Vec::new(alloc);
    let mut rest = bytes;
    for _ in 0..count {
        let (item, after) = read_instruction(alloc, rest)?;
        items.push(item)?;
        rest = after;
    }
    Ok((items, rest))
}

/// Reads how many instructions there are, and these.
#[tactic(auto, unfolding(rc_fields::specs::Reading::counted_at))]
pub(crate) fn read_code(alloc: Global, bytes: &[u8]) -> Result<(Vec<Instruction>, &[u8]), Stop>
    ensures { Gives (λ x. (x.0.items, x.1.now)) result (counted_at instruction_at bytes.now) }
{
    let (count, rest) = read_number(bytes)?;
    read_instruction_list(alloc, count, rest)
}

fn write_direction(out: &mut Vec<u8>, direction: Direction) -> Result<(), AllocError>
    ensures { OnOk result (out.new.items ≡ out.old.items ++ number (direction_number direction)) }
{
    match direction {
        Direction::Forward => write_number(out, 0),
        Direction::Backward => write_number(out, 1),
    }
}

fn write_bit(out: &mut Vec<u8>, bit: bool) -> Result<(), AllocError>
    ensures { OnOk result (out.new.items ≡ out.old.items ++ number (bit_number bit)) }
{
    if bit {
        write_number(out, 1)
    } else {
        write_number(out, 0)
    }
}

fn write_pins(out: &mut Vec<u8>, pins: &[u32]) -> Result<(), AllocError>
    ensures { OnOk result (out.new.items ≡ out.old.items ++ numbers (length pins.now ∷ pins.now)) }
{
    write_number(out, pins.len() as u64)?;
    write_numbers(out, pins)
}

fn write_operands(out: &mut Vec<u8>, instruction: &Instruction) -> Result<(), AllocError>
    ensures { OnOk result (out.new.items ≡ out.old.items ++ numbers (operands_of instruction.now)) }
{
    match instruction {
        Instruction::Simple(_) => Ok(()),
        Instruction::Constant(_, value) => write_number(out, u64::from(*value)),
        Instruction::Global(number) => write_number(out, u64::from(*number)),
        Instruction::Get(number) => write_number(out, u64::from(*number)),
        Instruction::Set(number) => write_number(out, u64::from(*number)),
        Instruction::Load(number) => write_number(out, u64::from(*number)),
        Instruction::Typed(_, number) => write_number(out, u64::from(*number)),
        Instruction::Jump(_, number) => write_number(out, u64::from(*number)),
        Instruction::Arithmetic(_, kind) => write_kind(out, *kind),
        Instruction::Move(number, kind, direction) => {
            write_number(out, u64::from(*number))?;
            write_kind(out, *kind)?;
            write_direction(out, *direction)
        }
        Instruction::Store(number, proved) => {
            write_number(out, u64::from(*number))?;
            write_bit(out, *proved)
        }
        Instruction::Delete(pins) => write_pins(out, pins.as_slice()),
        Instruction::Call(number, pins) => {
            write_number(out, u64::from(*number))?;
            write_pins(out, pins.as_slice())
        }
    }
}

fn write_instruction(out: &mut Vec<u8>, instruction: &Instruction) -> Result<(), AllocError>
    ensures { OnOk result (out.new.items ≡ out.old.items ++ instruction_bytes instruction.now) }
{
    write_number(out, u64::from(instruction.opcode().number()))?;
    write_operands(out, instruction)
}

pub(crate) fn write_code(out: &mut Vec<u8>, code: &[Instruction]) -> Result<(), AllocError>
    ensures { OnOk result (out.new.items ≡ out.old.items ++ counted instruction_bytes code.now) }
{
    write_number(out, code.len() as u64)?;
    for instruction in code {
        write_instruction(out, instruction)?;
    }
    Ok(())
}
