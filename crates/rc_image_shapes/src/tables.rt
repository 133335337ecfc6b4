// What is told of each local and of each instruction.
ghost use Rattle.std.specs.Prelude.{◌≡◌, ◌<◌, ◌≤◌, ◌+◌, ◌-◌, ◌^◌, ◌++◌, ◌∷◌, ◌||◌, [], ℕ, false, get_or, length, map, IfOk, OnOk};
ghost use Rattle.std.specs.List.{list_any};
ghost use Rattle.rc_code.specs.Soundness.{is_regional};
ghost use Rattle.rc_claims.specs.Counts.{one_if, trues};
ghost use Rattle.rc_sealed.specs.Carrying.{jumps_to};

use rc_base::NoMemory;
use rc_code::{Instruction, Storage};
use rc_image_counts::is_regional;
use std::alloc::Global;

/// One more, if so.
fn count_on(count: u32, so: bool) -> u32
    requires { count < 2 ^ 32 - 1 }
    ensures { result ≡ count + one_if so }
{
    if so { count + 1 } else { count }
}

fn put(out: &mut Vec<u32>, number: u32) -> Result<(), NoMemory>
    ensures { OnOk result (out.new.items ≡ out.old.items ++ number ∷ []) }
{
    out.push(number)?;
    Ok(())
}

/// For each local the variable that it has, if it is a region or a pointer: those stand one after another,
/// behind the hidden copies.
pub(crate) fn local_variables(
    alloc: Global,
    locals: &[Storage],
    copies: u32,
) -> Result<Vec<u32>, NoMemory>
    requires { (x : ℕ) → copies + trues (map is_regional locals.now) x ≤ 128 }
    ensures { IfOk result (λ table. (x : ℕ) → x < length locals.now → get_or table.items x 0 ≡ copies + trues (map is_regional locals.now) x) }
{
    let mut table = Vec::with_capacity(alloc, locals.len())?;
    let mut variable = copies;
    for at in 0..locals.len() {
        let storage = locals[at];
        put(&mut table, variable)?;
        let next = count_on(variable, is_regional(storage));
        variable = next;
    }
    Ok(table)
}

/// Marks the instruction to which a jump leads, if there is one.
fn mark_target(targets: &mut [bool], instruction: &Instruction)
    ensures long { length targets.new ≡ length targets.old }
    ensures marks { (at : ℕ) → at < length targets.old → get_or targets.new at false ≡ (get_or targets.old at false || jumps_to at instruction.now) }
{
    if let Instruction::Jump(_, target) = instruction {
        let target = *target as usize;
        if target < targets.len() {
            targets[target] = true;
        }
    }
}

/// For each instruction of the code whether a jump leads to it.
pub(crate) fn targets_of(alloc: Global, code: &[Instruction]) -> Result<Vec<bool>, NoMemory>
    ensures long { IfOk result (λ marks. length marks.items ≡ length code.now) }
    ensures marks { IfOk result (λ marks. (at : ℕ) → at < length code.now → get_or marks.items at false ≡ list_any (jumps_to at) code.now) }
{
    let mut targets = Vec::from_elem(alloc, false, code.len())?;
    let mut rest = code;
    while let [instruction, after @ ..] = rest {
        mark_target(&mut targets, instruction);
        rest = after;
    }
    Ok(targets)
}
