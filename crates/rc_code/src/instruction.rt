// Instructions with their operands.
ghost use Rattle.std.specs.Prelude.{◌≡◌, [], ◌∷◌, length, slice_get};
ghost use Rattle.rc_code.specs.Image.{opcode_of, kind_number, direction_number, operands_of};

use crate::opcode::{Arithmetic, Jump, Opcode, Simple, Typed};
use crate::pins::Pins;
use rc_core::operators::Direction;
use rc_core::ty::Signedness;

/// An instruction with its operands in the order of the table.
#[derive(Drop)]
pub enum Instruction {
    /// The value modulo 2^32.
    Constant(Signedness, u32),
    /// The number of a global.
    Global(u32),
    /// The number of a local.
    Get(u32),
    /// The number of a local.
    Set(u32),
    /// The number of a path.
    Load(u32),
    /// The number of a type.
    Typed(Typed, u32),
    /// The kind of the numbers that it takes.
    Arithmetic(Arithmetic, Signedness),
    /// The number of the pointer's type, the kind of the number, and the direction.
    Move(u32, Signedness, Direction),
    /// The number of a path, and whether the check of the annotation was proved.
    Store(u32, bool),
    Simple(Simple),
    /// The pinned locals.
    Delete(Pins),
    /// The number of a function, and the pinned locals.
    Call(u32, Pins),
    /// The number of the target.
    Jump(Jump, u32),
}

impl Instruction {
    /// Its row of the table.
    pub fn opcode(&self) -> Opcode
        ensures { result ≡ opcode_of self.now }
    {
        match self {
            Instruction::Constant(kind, _) => Opcode::Constant(*kind),
            Instruction::Global(_) => Opcode::Global,
            Instruction::Get(_) => Opcode::Get,
            Instruction::Set(_) => Opcode::Set,
            Instruction::Load(_) => Opcode::Load,
            Instruction::Typed(typed, _) => Opcode::Typed(*typed),
            Instruction::Arithmetic(arithmetic, _) => Opcode::Arithmetic(*arithmetic),
            Instruction::Move(..) => Opcode::Move,
            Instruction::Store(..) => Opcode::Store,
            Instruction::Simple(simple) => Opcode::Simple(*simple),
            Instruction::Delete(_) => Opcode::Delete,
            Instruction::Call(..) => Opcode::Call,
            Instruction::Jump(jump, _) => Opcode::Jump(*jump),
        }
    }

    /// The operand of that number, from 0: where locals are pinned, their count is one operand and
    /// each of them is one. None where there are no more.
    pub fn operand(&self, at: usize) -> Option<u64>
        ensures { result ≡ slice_get (operands_of self.now) at }
    {
        match self {
            Instruction::Constant(_, value) => first(at, *value),
            Instruction::Global(number)
            | Instruction::Get(number)
            | Instruction::Set(number)
            | Instruction::Load(number)
            | Instruction::Typed(_, number)
            | Instruction::Jump(_, number) => first(at, *number),
            Instruction::Arithmetic(_, kind) => first(at, number_of_kind(*kind)),
            Instruction::Move(type_number, kind, direction) => match at {
                0 => Some(u64::from(*type_number)),
                1 => Some(u64::from(number_of_kind(*kind))),
                2 => Some(u64::from(number_of_direction(*direction))),
                _ => None,
            },
            Instruction::Store(path, proved) => match at {
                0 => Some(u64::from(*path)),
                1 => Some(u64::from(*proved)),
                _ => None,
            },
            Instruction::Simple(_) => None,
            Instruction::Delete(pins) => pin(pins, at),
            Instruction::Call(function, pins) => match at {
                0 => Some(u64::from(*function)),
                _ => pin(pins, at - 1),
            },
        }
    }
}

/// 0 for `int` and 1 for `unsigned`.
fn number_of_kind(kind: Signedness) -> u32
    ensures { result ≡ kind_number kind }
{
    match kind {
        Signedness::Signed => 0,
        Signedness::Unsigned => 1,
    }
}

/// 0 for forwards and 1 for backwards.
fn number_of_direction(direction: Direction) -> u32
    ensures { result ≡ direction_number direction }
{
    match direction {
        Direction::Forward => 0,
        Direction::Backward => 1,
    }
}

/// The operand of that number, of one that is alone.
fn first(at: usize, operand: u32) -> Option<u64>
    ensures { result ≡ slice_get (operand ∷ []) at }
{
    match at {
        0 => Some(u64::from(operand)),
        _ => None,
    }
}

/// The operand of that number, of the count of pinned locals and these.
fn pin(pins: &Pins, at: usize) -> Option<u64>
    ensures { result ≡ slice_get (length pins.now ∷ pins.now) at }
{
    let pins = pins.as_slice();
    match at {
        0 => Some(pins.len() as u64),
        _ => match pins.get(at - 1) {
            Some(local) => Some(u64::from(*local)),
            None => None,
        },
    }
}
