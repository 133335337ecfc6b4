// Numbers of targets.
ghost use Rattle.std.specs.Prelude.{◌≡◌, ◌<◌, ◌≤◌, ◌+◌, ◌^◌, ◌++◌, ◌∷◌, [], ℕ, false, length, get_or, IfOk, OnOk};
ghost use Rattle.rc_claims.specs.Counts.{one_if};
ghost use Rattle.rc_prove_ways.specs.Leading.{IsSetOf};
ghost use Rattle.rc_prove_ways.specs.Ranks.{AreRanks};

use rc_base::NoMemory;
use std::alloc::Global;

/// Whether a table marks that instruction, no behind its end.
fn is_marked(targets: &[bool], at: usize) -> bool
    ensures { result ≡ get_or targets.now at false }
{
    match targets.get(at) {
        Some(so) => *so,
        None => false,
    }
}

fn put(out: &mut Vec<u32>, number: u32) -> Result<(), NoMemory>
    ensures { OnOk result (out.new.items ≡ out.old.items ++ number ∷ []) }
{
    out.push(number)?;
    Ok(())
}

/// One more, if so.
fn count_on(count: u32, so: bool, at: usize) -> u32
    requires few { count ≤ at }
    requires small { at + 1 < 2 ^ 32 }
    ensures { result ≡ count + one_if so }
{
    if so { count + 1 } else { count }
}

/// For each instruction how many targets stand before it, by a table of targets.
///
/// # Errors
///
/// Out of memory.
pub fn ranks_of(alloc: Global, targets: &[bool]) -> Result<Vec<u32>, NoMemory>
    requires { length targets.now < 2 ^ 32 }
    ensures { IfOk result (λ ranks. AreRanks targets.now ranks.items) }
{
    let mut ranks = Vec::with_capacity(alloc, targets.len())?;
    let mut count = 0;
    for at in 0..targets.len() {
        put(&mut ranks, count)?;
        let more = count_on(count, is_marked(targets, at), at);
        count = more;
    }
    Ok(ranks)
}

/// The number of the set of that instruction, if so, and if it is a target.
pub(crate) fn set_of(targets: &[bool], ranks: &[u32], so: bool, at: usize) -> Option<u32>
    requires { AreRanks targets.now ranks.now }
    ensures { IsSetOf targets.now so at result }
{
    if !so {
        return None;
    }
    if !is_marked(targets, at) {
        return None;
    }
    Some(ranks[at])
}
