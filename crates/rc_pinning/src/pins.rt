// Whether an instruction pins what it has to.
ghost use Rattle.std.specs.Prelude.{◌≡◌, ◌<◌, ◌+◌, ℕ, true, false, length, get_or, None, Some, MatchBool, MatchOption};
ghost use Rattle.rc_base.specs.BitSets.{marks};
ghost use Rattle.rc_code.specs.Running.{function_at, reading_of};
ghost use Rattle.rc_stops.specs.Rows.{row_at};
ghost use Rattle.rc_sealed.specs.Pinned.{Pinned};
ghost use Rattle.rc_pinning.specs.Tables.{has_number, pins_of, CallsWithin, IsKnown, IsReady, PinsByTables};

use crate::stops::number_at;
use crate::tables::Tables;
use rc_base::BitSet;
use rc_code::{Instruction, Parts};
use rc_deleters::Deleters;
use rc_image_counts::{function_of, instruction_of};

/// The numbers of pins.
fn numbers_of_pins(numbers: &[u32], pins: &[u32]) -> BitSet
    requires { (k : ℕ) → k < length pins.now → get_or numbers.now (get_or pins.now k 0) 0 < 128 }
    ensures { (n : ℕ) → marks result n ≡ has_number numbers.now pins.now n }
{
    let mut set = BitSet::empty();
    for at in 0..pins.len() {
        let number = number_at(numbers, pins[at]);
        set = set.with(number as usize);
    }
    set
}

/// The row of that number.
fn row_of(rows: &[BitSet], at: usize) -> BitSet
    requires { at < length rows.now }
    ensures { result ≡ row_at rows.now at }
{
    rows[at]
}

/// What is told of that place.
fn told_of(tells: &[bool], at: usize) -> bool
    requires { at < length tells.now }
    ensures { result ≡ get_or tells.now at false }
{
    tells[at]
}

/// Whether the pins are all that an instruction has to pin.
fn pins_all(tables: &Tables, at: usize, pins: &[u32]) -> bool
    requires above { at < length tables.now.above.items }
    requires row { at + 1 < length tables.now.rows.items }
    requires small { (k : ℕ) → k < length pins.now → get_or tables.now.numbers.items (get_or pins.now k 0) 0 < 128 }
    ensures { MatchBool result (PinsByTables tables.now at pins.now) (PinsByTables tables.now at pins.now → ⊥) }
{
    if !told_of(&tables.above, at) {
        return false;
    }
    let pinned = numbers_of_pins(&tables.numbers, pins);
    row_of(&tables.rows, at + 1).is_subset(pinned)
}

/// The pins, if so.
fn where_so(so: bool, pins: &[u32]) -> Option<&[u32]>
    ensures { MatchOption result (so ≡ false) (λ found. (so ≡ true) × (found.now ≡ pins.now)) }
{
    if so { Some(pins) } else { None }
}

/// The pins of an instruction that has to pin, none of one that doesn't have to.
fn pins_of<'p>(deleters: &Deleters, instruction: &'p Instruction) -> Option<&'p [u32]>
    requires { CallsWithin deleters.now instruction.now }
    ensures { MatchOption result (pins_of deleters.now instruction.now ≡ None) (λ pins. pins_of deleters.now instruction.now ≡ Some pins.now) }
{
    match instruction {
        Instruction::Delete(pins) => Some(pins.as_slice()),
        Instruction::Call(number, pins) => {
            where_so(deleters.may_delete(*number), pins.as_slice())
        }
        _ => None,
    }
}

/// Whether an instruction has to pin.
pub(crate) fn has_to_pin(parts: &Parts, number: u32, deleters: &Deleters, at: usize) -> bool
    requires known { IsKnown parts.now number deleters.now }
    requires inside { at < length (function_at (reading_of parts.now) number).code }
    ensures { result ≡ false → Pinned (reading_of parts.now) number at }
{
    match pins_of(deleters, instruction_of(function_of(parts, number), at)) {
        None => false,
        Some(_pins) => true,
    }
}

/// Whether an instruction pins what it has to.
pub(crate) fn is_pinned(
    parts: &Parts,
    number: u32,
    deleters: &Deleters,
    tables: &Tables,
    at: usize,
) -> bool
    requires ready { IsReady parts.now number deleters.now tables.now }
    requires inside { at < length (function_at (reading_of parts.now) number).code }
    ensures { MatchBool result (Pinned (reading_of parts.now) number at) (Pinned (reading_of parts.now) number at → ⊥) }
{
    match pins_of(deleters, instruction_of(function_of(parts, number), at)) {
        None => true,
        Some(pins) => pins_all(tables, at, pins),
    }
}
