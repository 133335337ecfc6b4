// Entries.
ghost use Rattle.std.specs.Prelude.{◌≡◌, ◌<◌, ◌≤◌, ◌&&◌, suc, false, length, get_or, IfOk};
ghost use Rattle.rc_facts.specs.Derivable.{Derivable};
ghost use Rattle.rc_facts.specs.Facts.{holds, is_over, names};
ghost use Rattle.rc_facts.specs.Flow.{no_set};
ghost use Rattle.rc_edges.specs.Reading.{Loses};

use crate::losing::lose;
use crate::reading::{numbers, read};
use rc_base::NoMemory;
use rc_facts::FactSet;
use std::alloc::Global;

/// Keeps at the first point of a function what follows from the facts of its entry, which are on its
/// hidden copies, and says whether a fact was lost. The only error is want of memory.
pub fn begin(
    alloc: Global,
    sets: &mut [FactSet],
    entry: &FactSet,
    copies: u32,
    spare: u32,
) -> Result<bool, NoMemory>
    requires copies { entry.now.variables ≡ copies }
    requires hidden { copies ≤ spare }
    requires few { spare < 128 }
    requires some { 0 < length sets.old }
    requires first { (get_or sets.old 0 no_set).variables ≡ suc spare }
    ensures { IfOk result (λ lost. Loses lost sets.old sets.new (λ p fact. p ≡ 0 → Derivable (suc spare) (λ q. is_over copies q && holds entry.now q) fact × (names spare fact ≡ false))) }
{
    let own = numbers(alloc, copies)?;
    let mut known = read(alloc, entry, own.as_slice(), spare + 1)?;
    known.close();
    known.forget(spare);
    Ok(lose(sets, 0, &known))
}
