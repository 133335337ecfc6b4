// Entering operands into a table, each once.
ghost use Rattle.std.specs.Prelude.{◌≡◌, ℕ, List, length, map, take, reverse, OnOk, IfOk};
ghost use Rattle.std.specs.List.{AllByRecursion as Every};
ghost use Rattle.rc_emission.specs.KeptOperands.{same_kept, once};
ghost use Rattle.rc_lines.specs.Gathered.{kept_of, all_kept};
ghost use Rattle.rc_lines.specs.Keys.{HasKey};
ghost use Rattle.rc_lines.specs.Keyed.{key_of};
ghost use Rattle.rc_scope.specs.Names.{with_name};
ghost use Rattle.rc_program_code.specs.Entered.{Entering, AreDistinct};

use rc_base::NoMemory;
use rc_lines::{KeptOperand, kept_key};
use rc_scope::Names;
use std::alloc::Global;

/// Numbers a key that may be new. There are fewer than 2^32 of them.
fn number(names: &mut Names, key: &[u8]) -> Result<(), NoMemory>
    ensures { OnOk result (names.new ≡ with_name names.old key.now) }
{
    if names.len() >= u32::MAX as usize {
        return Err(NoMemory);
    }
    names.number(key)?;
    Ok(())
}

/// Enters an operand behind those that are there, unless it is there. The keys are theirs.
fn enter<'a>(
    alloc: Global,
    keys: &mut Names,
    table: &mut Vec<KeptOperand<'a>>,
    operand: KeptOperand<'a>,
) -> Result<(), NoMemory>
    ensures { OnOk result (Entering (kept_of operand.entry) keys.old keys.new (all_kept table.old.items) (all_kept table.new.items)) }
{
    let key = kept_key(alloc, operand.height, operand.ty)?;
    if keys.find(key.as_slice()).is_none() {
        number(keys, key.as_slice())?;
        table.push(operand)?;
    }
    Ok(())
}

/// The operands, each once, in the order in which they stand last.
pub(crate) fn each_once<'a>(
    alloc: Global,
    kept: &[KeptOperand<'a>],
) -> Result<Vec<KeptOperand<'a>>, NoMemory>
    ensures once { IfOk result (λ table. all_kept table.items ≡ once same_kept (all_kept kept.now)) }
    ensures own { OnOk result (Every HasKey (all_kept kept.now)) }
{
    let mut keys = Names::new(alloc);
    let mut table = Vec::new(alloc);
    for i in (0..kept.len()).rev() {
        enter(alloc, &mut keys, &mut table, kept[i])?;
    }
    table.reverse();
    Ok(table)
}

/// The keys of different operands, each at its place.
pub(crate) fn keys_of(alloc: Global, table: &[KeptOperand<'_>]) -> Result<Names, NoMemory>
    requires { AreDistinct (all_kept table.now) }
    ensures { IfOk result (λ keys. keys ≡ map key_of (all_kept table.now)) }
{
    let mut keys = Names::new(alloc);
    for operand in table {
        let key = kept_key(alloc, operand.height, operand.ty)?;
        number(&mut keys, key.as_slice())?;
    }
    Ok(keys)
}
