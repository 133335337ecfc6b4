// Which operands are numbers, before each instruction of a function.
ghost use Rattle.std.specs.Prelude.{◌≡◌, ◌<◌, ◌≤◌, ◌+◌, ◌-◌, ◌^◌, ◌++◌, ◌∷◌, ◌↔◌, [], ℕ, Bool, true, List, length, map, drop, get_or, option_to_list, min, nat_le, ◌&&◌, IfOk, OnOk, MatchBool};
ghost use Rattle.std.specs.List.{AllByRecursion as Every};
ghost use Rattle.rc_core.specs.declared.ty.NumberType.TheVariants.{Int};
ghost use Rattle.rc_code.specs.declared.image.Function.{Function as AnyFunction};
ghost use Rattle.rc_code.specs.declared.instruction.Instruction.TheVariants as instruction;
ghost use Rattle.rc_code.specs.declared.kind.Cell.TheVariants as cell;
ghost use Rattle.rc_code.specs.Image.{cells_at};
ghost use Rattle.rc_code.specs.Running.{Reading, cell_kind, path_at, pointee, reading_of, storage_by};
ghost use Rattle.rc_code.specs.Soundness.{Kind, Names, count_off, gives, instruction_at, operand_kind, kinds_before, local_in, reached_kind};
ghost use Rattle.rc_sealed.specs.Pinned.{IsNumeric};
ghost use Rattle.rc_pinning.specs.Operands.{is_numeric, CountOperands, TellsAboveNumbers};

use crate::stops::local_of;
use rc_base::NoMemory;
use rc_code::{Cell, Function, Instruction, Parts, Path, Simple, Storage, Typed};
use rc_core::ty::NumberType;
use rc_image_counts::{instruction_of, lowest};
use std::alloc::Global;

/// How many operands there are, and so many of the lowest that these are all numbers and the next one
/// isn't.
#[derive(Clone, Copy)]
pub(crate) struct Operands {
    pub height: usize,
    pub numbers: usize,
}

/// Whether it holds numbers.
fn holds_numbers(storage: Storage) -> bool
    ensures { result ≡ is_numeric (operand_kind storage) }
{
    match storage {
        Storage::Number(_) => true,
        Storage::Region | Storage::Pointer(_) => false,
    }
}

/// Whether the cell is a number.
fn is_number(cell: Cell) -> bool
    ensures { result ≡ is_numeric (operand_kind (storage_by pointee (cell_kind cell))) }
{
    match cell {
        Cell::Number(_) => true,
        Cell::Region | Cell::Pointer(..) => false,
    }
}

/// The cells of the type of that number, none where there is no such type.
fn cells_of(parts: &Parts, type_number: u32) -> &[Cell]
    ensures { result.now ≡ cells_at parts.now.types type_number }
{
    match parts.types.as_slice().get(type_number as usize) {
        Some(cells) => cells.as_slice(),
        None => &[],
    }
}

/// The cell at that place.
fn cell_of(cells: &[Cell], place: u32) -> Cell
    ensures { result ≡ get_or cells.now place (cell.Number Int) }
{
    match cells.get(place as usize) {
        Some(cell) => *cell,
        None => Cell::Number(NumberType::Int),
    }
}

/// Whether a path leads to numbers.
#[tactic(auto, using(crate::proofs::Giving::cell_led_to))]
fn leads_to_numbers(parts: &Parts, path: &Path) -> bool
    ensures { result ≡ is_numeric (reached_kind (reading_of parts.now) path.now) }
{
    is_number(cell_of(cells_of(parts, path.type_number), path.offset))
}

/// The path of that number.
fn path_of(parts: &Parts, number: u32) -> &Path
    requires { number < length parts.now.paths }
    ensures { result.now ≡ path_at (reading_of parts.now) number }
{
    &parts.paths.as_slice()[number as usize]
}

/// Whether a load by the path of that number gives a number.
fn load_gives_number(parts: &Parts, number: u32) -> bool
    requires { number < length parts.now.paths }
    ensures { result ≡ is_numeric (reached_kind (reading_of parts.now) (path_at (reading_of parts.now) number)) }
{
    leads_to_numbers(parts, path_of(parts, number))
}

/// Whether a get of the local gives a number.
fn get_gives_number(function: &Function, local: u32) -> bool
    requires { local < length function.now.locals }
    ensures { result ≡ is_numeric (operand_kind (local_in function.now local)) }
{
    holds_numbers(local_of(function, local))
}

/// Whether an instruction on pointers gives a number.
fn typed_gives_number(typed: Typed) -> bool
    ensures { (image : Reading) (f : AnyFunction) (type_number : ℕ) → map is_numeric (gives image f (instruction.Typed typed type_number)) ≡ result ∷ [] }
{
    match typed {
        Typed::Same | Typed::IsNull => true,
        Typed::Null | Typed::RegionOf | Typed::Allocate | Typed::AllocateArray => false,
    }
}

/// What an instruction without operands of its own gives: whether it is a number, none where there is
/// nothing.
fn simple_gives(simple: Simple) -> Option<bool>
    ensures { (image : Reading) (f : AnyFunction) → map is_numeric (gives image f (instruction.Simple simple)) ≡ option_to_list result }
{
    match simple {
        Simple::Return | Simple::Pop => None,
        Simple::NullRegion | Simple::NewRegion | Simple::NewSubregion => Some(false),
        _ => Some(true),
    }
}

/// The same of a call of the function of that number.
fn call_gives(parts: &Parts, number: u32) -> Option<bool>
    ensures { (f : AnyFunction) (pins : List ℕ) → map is_numeric (gives (reading_of parts.now) f (instruction.Call number pins)) ≡ option_to_list result }
{
    match parts.functions.as_slice().get(number as usize) {
        None => None,
        Some(function) => match function.result {
            None => None,
            Some(storage) => Some(holds_numbers(storage)),
        },
    }
}

/// The same of an instruction.
#[tactic(auto, using(crate::proofs::Giving::constant_is_numeric, crate::proofs::Giving::arithmetic_is_numeric, crate::proofs::Giving::jump_gives_nothing))]
fn given(parts: &Parts, function: &Function, instruction: &Instruction) -> Option<bool>
    requires { Names true (reading_of parts.now) function.now instruction.now }
    ensures { map is_numeric (gives (reading_of parts.now) function.now instruction.now) ≡ option_to_list result }
{
    match instruction {
        Instruction::Constant(..) | Instruction::Arithmetic(..) => Some(true),
        Instruction::Global(_) | Instruction::Move(..) => Some(false),
        Instruction::Get(local) => Some(get_gives_number(function, *local)),
        Instruction::Load(path) => Some(load_gives_number(parts, *path)),
        Instruction::Typed(typed, _) => Some(typed_gives_number(*typed)),
        Instruction::Simple(simple) => simple_gives(*simple),
        Instruction::Call(number, _) => call_gives(parts, *number),
        Instruction::Set(_)
        | Instruction::Store(..)
        | Instruction::Delete(_)
        | Instruction::Jump(..) => None,
    }
}

/// So many of the lowest operands, and what is given above them.
fn above(left: usize, numbers: usize, given: Option<bool>) -> Operands
    requires small { left < 2 ^ 32 }
    ensures low { result.height ≤ left + 1 }
    ensures count { (kinds : List Kind) (c : ℕ) (more : List Kind) → ((b : ℕ) → (length kinds - b ≤ numbers) ↔ Every IsNumeric (drop b kinds)) → left ≡ length kinds - c → map is_numeric more ≡ option_to_list given → CountOperands (more ++ drop c kinds) result }
{
    match given {
        None => Operands {
            height: left,
            numbers,
        },
        Some(is_number) => Operands {
            height: left + 1,
            numbers: raised(left, numbers, is_number),
        },
    }
}

/// How many of the lowest operands are numbers, where so many of those below the last were.
fn raised(left: usize, numbers: usize, is_number: bool) -> usize
    requires small { left < 2 ^ 32 }
    ensures { MatchBool (is_number && nat_le left numbers) (result ≡ left + 1) (result ≡ min left numbers) }
{
    if is_number && left <= numbers {
        left + 1
    } else {
        left.min(numbers)
    }
}

fn put(out: &mut Vec<bool>, answer: bool) -> Result<(), NoMemory>
    ensures { OnOk result (out.new.items ≡ out.old.items ++ answer ∷ []) }
{
    out.push(answer)?;
    Ok(())
}

/// The operands behind an instruction, where there are so many below those that it takes.
fn behind(parts: &Parts, function: &Function, at: usize, left: usize, numbers: usize) -> Operands
    requires small { left < 2 ^ 32 }
    requires names { Names true (reading_of parts.now) function.now (instruction_at function.now at) }
    requires there { at < length function.now.code }
    requires left { left ≡ length (kinds_before (reading_of parts.now) function.now at) - count_off (reading_of parts.now) function.now (instruction_at function.now at) }
    requires numbers { (c : ℕ) → (length (kinds_before (reading_of parts.now) function.now at) - c ≤ numbers) ↔ Every IsNumeric (drop c (kinds_before (reading_of parts.now) function.now at)) }
    ensures low { result.height ≤ left + 1 }
    ensures count { CountOperands (kinds_before (reading_of parts.now) function.now (at + 1)) result }
{
    above(
        left,
        numbers,
        given(parts, function, instruction_of(function, at)),
    )
}

/// For each instruction of a function, whether there are numbers alone below the operands that it takes.
///
/// # Errors
///
/// Out of memory.
pub(crate) fn above_numbers(
    alloc: Global,
    parts: &Parts,
    function: &Function,
) -> Result<Vec<bool>, NoMemory>
    requires small { length function.now.code < 2 ^ 32 }
    requires names { (at : ℕ) → at < length function.now.code → Names true (reading_of parts.now) function.now (instruction_at function.now at) }
    ensures { IfOk result (λ tells. TellsAboveNumbers (reading_of parts.now) function.now tells.items) }
{
    let mut tells = Vec::new(alloc);
    let mut operands = Operands {
        height: 0,
        numbers: 0,
    };
    for at in 0..function.code.as_slice().len() {
        let left = lowest(
            parts,
            function,
            instruction_of(function, at),
            operands.height,
        );
        put(&mut tells, left <= operands.numbers)?;
        operands = behind(parts, function, at, left, operands.numbers);
    }
    Ok(tells)
}
