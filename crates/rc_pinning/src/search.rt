// The first instruction of a function that doesn't pin what it has to.
ghost use Rattle.std.specs.Prelude.{◌≡◌, ◌<◌, ℕ, false, length, IfOk};
ghost use Rattle.rc_code.specs.Image.{FieldsFit};
ghost use Rattle.rc_code.specs.Running.{function_at, reading_of};
ghost use Rattle.rc_code.specs.Soundness.{Sound};
ghost use Rattle.rc_sealed.specs.Faults.{IsWide};
ghost use Rattle.rc_sealed.specs.Pinned.{Pinned};
ghost use Rattle.rc_deleters.specs.Calls.{TellsDeleters};
ghost use Rattle.rc_pinning.specs.Tables.{IsKnown, IsReady};
ghost use Rattle.rc_pinning.specs.Unpinned.{TellsUnpinned};

use crate::pins::{has_to_pin, is_pinned};
use crate::tables::{Tables, tables_of};
use rc_base::NoMemory;
use rc_code::Parts;
use rc_deleters::Deleters;
use rc_image_counts::function_of;
use std::alloc::Global;

/// How many instructions a function has.
fn code_length(parts: &Parts, number: u32) -> usize
    requires { number < length parts.now.functions }
    ensures { result ≡ length (function_at (reading_of parts.now) number).code }
{
    function_of(parts, number).code.as_slice().len()
}

/// Whether an instruction of a function has to pin.
fn some_has_to_pin(parts: &Parts, number: u32, deleters: &Deleters) -> bool
    requires { IsKnown parts.now number deleters.now }
    ensures { result ≡ false → (at : ℕ) → at < length (function_at (reading_of parts.now) number).code → Pinned (reading_of parts.now) number at }
{
    for at in 0..code_length(parts, number) {
        if has_to_pin(parts, number, deleters, at) {
            return true;
        }
    }
    false
}

/// The first instruction that doesn't pin what it has to, by tables.
fn search(parts: &Parts, number: u32, deleters: &Deleters, tables: &Tables) -> Option<u32>
    requires ready { IsReady parts.now number deleters.now tables.now }
    ensures { TellsUnpinned parts.now number result }
{
    for at in 0..code_length(parts, number) {
        if !is_pinned(parts, number, deleters, tables, at) {
            return Some(at as u32);
        }
    }
    None
}

/// The first instruction of a function that doesn't pin what it has to, none where each pins it. It asks
/// which functions may delete. Each instruction is looked at once; and where one has to pin, each is woken
/// for what is used behind it at most 128 times.
///
/// # Errors
///
/// Out of memory.
pub fn first_unpinned(
    alloc: Global,
    parts: &Parts,
    number: u32,
    deleters: &Deleters,
) -> Result<Option<u32>, NoMemory>
    requires fields { FieldsFit parts.now }
    requires sound { Sound parts.now }
    requires there { number < length parts.now.functions }
    requires narrow { IsWide parts.now number → ⊥ }
    requires deleters { TellsDeleters parts.now deleters.now }
    ensures { IfOk result (λ found. TellsUnpinned parts.now number found) }
{
    if !some_has_to_pin(parts, number, deleters) {
        return Ok(None);
    }
    let tables = tables_of(alloc, parts, number)?;
    Ok(search(parts, number, deleters, &tables))
}
