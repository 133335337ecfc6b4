// Tables of a function, by which its pins are looked at.
ghost use Rattle.std.specs.Prelude.{◌≡◌, ◌<◌, length, IfOk};
ghost use Rattle.rc_code.specs.Image.{FieldsFit};
ghost use Rattle.rc_code.specs.Soundness.{Sound};
ghost use Rattle.rc_sealed.specs.Faults.{IsWide};
ghost use Rattle.rc_pinning.specs.Tables.{AreTables};

use crate::numbers::numbers_of;
use crate::operands::above_numbers;
use crate::stops::used_in;
use rc_base::{BitSet, NoMemory};
use rc_code::Parts;
use rc_image_counts::function_of;
use std::alloc::Global;

/// Tables of a function.
#[derive(Drop)]
pub(crate) struct Tables {
    /// The number of each local among those that are regions or pointers.
    pub numbers: Vec<u32>,
    /// The numbers of those that are used from each instruction on.
    pub rows: Vec<BitSet>,
    /// Whether there are numbers alone below the operands that each instruction takes.
    pub above: Vec<bool>,
}

/// The tables of a function.
///
/// # Errors
///
/// Out of memory.
pub(crate) fn tables_of(alloc: Global, parts: &Parts, number: u32) -> Result<Tables, NoMemory>
    requires fields { FieldsFit parts.now }
    requires sound { Sound parts.now }
    requires there { number < length parts.now.functions }
    requires narrow { IsWide parts.now number → ⊥ }
    ensures { IfOk result (λ tables. AreTables parts.now number tables) }
{
    let function = function_of(parts, number);
    let numbers = numbers_of(alloc, function.locals.as_slice())?;
    let rows = used_in(alloc, parts, number)?;
    let above = above_numbers(alloc, parts, function)?;
    Ok(Tables {
        numbers,
        rows,
        above,
    })
}
