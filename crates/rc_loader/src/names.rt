// Whether operands name what is there, and jumps stay in their function.
ghost use Rattle.std.specs.Prelude.{◌≡◌, ℕ, ◌<◌, ◌||◌, nat_lt, false, length, get_or, IfOk};
ghost use Rattle.rc_code.specs.Soundness.{is_regional, ends};
ghost use Rattle.rc_loader.specs.Decisions.{is_before, is_pin, are_pins, may_be_marked, may_end, leads_to, is_named};

use crate::taken::is_annotated;
use rc_code::{Cell, Function, Instruction, Jump, Parts, Simple, Storage};
use std::alloc::{AllocError, Global};

/// Whether a local may be pinned.
fn is_regional(storage: Storage) -> bool
    ensures { result ≡ is_regional storage }
{
    match storage {
        Storage::Number(_) => false,
        Storage::Region | Storage::Pointer(_) => true,
    }
}

/// Whether a local is there, and may be pinned.
fn is_pin(function: &Function, local: u32) -> bool
    ensures { result ≡ is_pin function.now local }
{
    match function.locals.as_slice().get(local as usize) {
        Some(storage) => is_regional(*storage),
        None => false,
    }
}

/// Whether a local is before the next one, if there is one.
fn is_before(local: u32, after: &[u32]) -> bool
    ensures { result ≡ is_before local after.now }
{
    match after {
        [] => true,
        [next, ..] => local < *next,
    }
}

/// Whether these are locals that may be pinned, in increasing order.
pub(crate) fn are_pins(function: &Function, pins: &[u32]) -> bool
    ensures { result ≡ are_pins function.now pins.now }
{
    let mut rest = pins;
    while let [local, after @ ..] = rest {
        if !(is_pin(function, *local) && is_before(*local, after)) {
            return false;
        }
        rest = after;
    }
    true
}

/// Whether a store to that cell may have the mark, if it has it.
pub(crate) fn may_be_marked(cell: Cell, proved: bool) -> bool
    ensures { result ≡ may_be_marked cell proved }
{
    !proved || is_annotated(cell)
}

/// Whether there is a type of that number.
pub(crate) fn has_type(parts: &Parts, type_number: u32) -> bool
    ensures { result ≡ nat_lt type_number (length parts.now.types) }
{
    (type_number as usize) < parts.types.as_slice().len()
}

/// Whether nothing behind an instruction is run.
fn ends(instruction: &Instruction) -> bool
    ensures { result ≡ ends instruction.now }
{
    match instruction {
        Instruction::Simple(Simple::Return) | Instruction::Jump(Jump::Always | Jump::Back, _) =>
            true,
        _ => false,
    }
}

/// Whether an instruction isn't the last one, or nothing behind it is run.
pub(crate) fn may_end(size: usize, at: usize, instruction: &Instruction) -> bool
    requires { at < size }
    ensures { result ≡ may_end size at instruction.now }
{
    at + 1 < size || ends(instruction)
}

/// For each instruction of the code whether a jump leads to it, wherever the jump stands.
pub(crate) fn targets_of(alloc: Global, code: &[Instruction]) -> Result<Vec<bool>, AllocError>
    ensures { IfOk result (λ marks. (length marks.items ≡ length code.now) × ((n : ℕ) → n < length code.now → get_or marks.items n false ≡ is_named code.now n)) }
{
    let mut targets = Vec::from_elem(alloc, false, code.len())?;
    let mut rest = code;
    while let [instruction, after @ ..] = rest {
        mark_target(&mut targets, instruction);
        rest = after;
    }
    Ok(targets)
}

/// Marks the instruction to which a jump leads, if there is one.
fn mark_target(targets: &mut [bool], instruction: &Instruction)
    ensures long { length targets.new ≡ length targets.old }
    ensures marks { (n : ℕ) → n < length targets.old → get_or targets.new n false ≡ (get_or targets.old n false || leads_to n instruction.now) }
{
    if let Instruction::Jump(_, target) = instruction {
        let target = *target as usize;
        if target < targets.len() {
            targets[target] = true;
        }
    }
}
