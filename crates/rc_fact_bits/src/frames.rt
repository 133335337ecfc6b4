// Sets of facts as frames.
ghost use Rattle.std.specs.Prelude.{◌≡◌, ◌<◌, ◌≤◌, ◌++◌, ◌∷◌, ◌^◌, [], ℕ, false, length, get_or, IfOk, OnOk};
ghost use Rattle.rc_facts.specs.Facts.{holds};
ghost use Rattle.rc_facts.specs.Flow.{no_set};
ghost use Rattle.rc_claims.specs.declared.proofs.Frame.{Frame as AnyFrame};
ghost use Rattle.rc_claims.specs.Counts.{trues};
ghost use Rattle.rc_fact_bits.specs.Framing.{AreFramesOf, IsFrameOf};

use crate::bits::bits_of;
use rc_base::NoMemory;
use rc_claims::Frame;
use rc_facts::FactSet;
use std::alloc::Global;

/// Puts a frame behind the others: before that instruction the facts of the set on the first `n`
/// variables.
fn put_frame(
    alloc: Global,
    frames: &mut Vec<Frame>,
    at: u32,
    n: u32,
    set: &FactSet,
) -> Result<(), NoMemory>
    requires few { n ≤ 128 }
    requires room { n ≤ set.now.variables }
    ensures { OnOk result ((frame : AnyFrame) × (frames.new.items ≡ frames.old.items ++ frame ∷ []) × IsFrameOf n at (holds set.now) frame) }
{
    let facts = bits_of(alloc, n, set)?;
    frames.push(Frame { at, facts })?;
    Ok(())
}

/// Whether an instruction is a target.
fn is_target(targets: &[bool], at: usize) -> bool
    requires { at < length targets.now }
    ensures { result ≡ get_or targets.now at false }
{
    targets[at]
}

/// The frames of a function, by a table of its targets: before each target the facts on the first `n`
/// variables of the set of its number.
///
/// # Errors
///
/// Out of memory.
pub fn frames_of(
    alloc: Global,
    n: u32,
    sets: &[FactSet],
    targets: &[bool],
) -> Result<Vec<Frame>, NoMemory>
    requires few { n ≤ 128 }
    requires room { (r : ℕ) → r < length sets.now → n ≤ (get_or sets.now r no_set).variables }
    requires enough { trues targets.now (length targets.now) ≤ length sets.now }
    requires small { length targets.now < 2 ^ 32 }
    ensures { IfOk result (λ frames. AreFramesOf n sets.now targets.now frames.items) }
{
    let mut frames = Vec::with_capacity(alloc, sets.len())?;
    let mut next = 0;
    for at in 0..targets.len() {
        let so = is_target(targets, at);
        if so {
            put_frame(alloc, &mut frames, at as u32, n, &sets[next])?;
            next += 1;
        }
    }
    Ok(frames)
}
