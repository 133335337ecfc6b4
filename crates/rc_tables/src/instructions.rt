// Instructions.
ghost use Rattle.std.specs.Prelude.{◌≡◌, ◌∷◌, ◌++◌, [], length, map, OnOk, IfOk};
ghost use Rattle.std.specs.List.{AllByRecursion as Every};
ghost use Rattle.rc_code.specs.Image.{IsNumber};
ghost use Rattle.rc_core.specs.Shapes.{ty_of};
ghost use Rattle.rc_emission.specs.StackCode.{Line as StackLine};
ghost use Rattle.rc_lines.specs.Bare.{instruction_of, lines_of};
ghost use Rattle.rc_numbering.specs.Numbered.{by_type, numbered, numbered_from};
ghost use Rattle.rc_tables.specs.Placed.{path_number, placed, placed_code, type_number};

use crate::numbers::Numbers;
use crate::rows::{backward, conversion, forward, pointee, row_of, unary_row, word_of};
use rc_base::NoMemory;
use rc_code::{Instruction as Row, Jump, Pins, Simple, Typed};
use rc_core::ty::Ty;
use rc_lines::{Instruction, Line};
use std::alloc::Global;

/// The row for a region, or for a pointer with the number of the type that it points to.
fn by_type(numbers: &Numbers<'_>, row: Simple, row_typed: Typed, ty: &Ty) -> Result<Row, NoMemory>
    ensures { IfOk result (λ r. r ≡ by_type (type_number numbers.now) (path_number numbers.now) row row_typed (ty_of ty.now)) }
{
    match ty {
        Ty::Int => Ok(Row::Simple(row)),
        Ty::Unsigned => Ok(Row::Simple(row)),
        Ty::Char => Ok(Row::Simple(row)),
        Ty::Region => Ok(Row::Simple(row)),
        Ty::Struct(_number) => Ok(Row::Simple(row)),
        Ty::Pointer(_, target) => Ok(Row::Typed(row_typed, numbers.type_number(target)?)),
    }
}

/// Pinned locals.
fn pins(alloc: Global, of: &[u32]) -> Result<Pins, NoMemory>
    ensures { IfOk result (λ r. r ≡ of.now) }
{
    Ok(Pins::new(alloc, Vec::from_slice(alloc, of)?)?)
}

/// An instruction that stands at a place, of a function with so many.
fn numbered(
    numbers: &Numbers<'_>,
    total: usize,
    at: usize,
    instruction: Instruction<'_>,
) -> Result<Row, NoMemory>
    ensures { IfOk result (λ r. r ≡ numbered (type_number numbers.now) (path_number numbers.now) at (placed total (instruction_of instruction.entry))) }
{
    let row = match instruction {
        Instruction::Number(kind, value) => Row::Constant(kind, word_of(value)),
        Instruction::Null(ty) => by_type(numbers, Simple::NullRegion, Typed::Null, ty)?,
        Instruction::Global(global) => Row::Global(global),
        Instruction::Get(local) => Row::Get(local),
        Instruction::Set(local) => Row::Set(local),
        Instruction::Arithmetic(operator, kind) => Row::Arithmetic(row_of(operator), kind),
        Instruction::Unary(operator, kind) => Row::Arithmetic(unary_row(operator), kind),
        Instruction::ZeroTest => Row::Simple(Simple::IsZero),
        Instruction::NullTest(ty) => by_type(numbers, Simple::IsNullRegion, Typed::IsNull, ty)?,
        Instruction::Same(ty) => by_type(numbers, Simple::SameRegion, Typed::Same, ty)?,
        Instruction::Convert(to) => Row::Simple(conversion(to)),
        Instruction::Move(ty, kind, direction) => {
            Row::Move(numbers.type_number(pointee(ty))?, kind, direction)
        }
        Instruction::Load(reach) => Row::Load(numbers.path_number(reach)?),
        Instruction::Store(reach) => Row::Store(numbers.path_number(reach)?, false),
        Instruction::NewRegion => Row::Simple(Simple::NewRegion),
        Instruction::NewSubregion => Row::Simple(Simple::NewSubregion),
        Instruction::RegionOf(ty) => {
            Row::Typed(Typed::RegionOf, numbers.type_number(pointee(ty))?)
        }
        Instruction::Allocate(ty) => Row::Typed(Typed::Allocate, numbers.type_number(ty)?),
        Instruction::AllocateArray(ty) => {
            Row::Typed(Typed::AllocateArray, numbers.type_number(ty)?)
        }
        Instruction::Delete(locals) => Row::Delete(pins(numbers.alloc, locals)?),
        Instruction::Call(function, locals) => Row::Call(function, pins(numbers.alloc, locals)?),
        Instruction::Leave => Row::Simple(Simple::Return),
        Instruction::Putchar => Row::Simple(Simple::PutChar),
        Instruction::Getchar => Row::Simple(Simple::GetChar),
        Instruction::Jump(over) => Row::Jump(Jump::Always, forward(at, over)?),
        Instruction::JumpZero(over) => Row::Jump(Jump::IfZero, forward(at, over)?),
        Instruction::Back(left) => Row::Jump(Jump::Back, backward(total, left)?),
        Instruction::Pop => Row::Simple(Simple::Pop),
    };
    Ok(row)
}

/// The instructions of a function.
pub(crate) fn instructions(numbers: &Numbers<'_>, lines: &[Line<'_>]) -> Result<Vec<Row>, NoMemory>
    ensures { IfOk result (λ r. r.items ≡ numbered_from (type_number numbers.now) (path_number numbers.now) 0 (placed_code (length lines.now) (lines_of lines.now))) }
{
    let total = lines.len();
    let mut rows = Vec::new(numbers.alloc);
    for at in 0..total {
        let line = &lines[at];
        rows.push(numbered(numbers, total, at, line.instruction)?)?;
    }
    Ok(rows)
}

/// Puts the number of a line behind the others.
fn add_line(numbers: &mut Vec<u32>, line: u32) -> Result<(), NoMemory>
    ensures added { OnOk result (numbers.new.items ≡ numbers.old.items ++ line ∷ []) }
    ensures number { IsNumber line }
{
    Ok(numbers.push(line)?)
}

/// The lines of the source for which the instructions were made.
pub(crate) fn source_lines(alloc: Global, lines: &[Line<'_>]) -> Result<Vec<u32>, NoMemory>
    ensures lines { IfOk result (λ r. r.items ≡ map (λ (l : StackLine). l.line) (lines_of lines.now)) }
    ensures numbers { IfOk result (λ r. Every IsNumber r.items) }
{
    let mut numbers = Vec::new(alloc);
    for line in lines {
        add_line(&mut numbers, line.line)?;
    }
    Ok(numbers)
}
