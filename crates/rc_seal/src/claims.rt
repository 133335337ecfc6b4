// The proofs that sets of facts are.
ghost use Rattle.std.specs.Prelude.{◌≡◌, ◌<◌, ◌≤◌, ◌++◌, ◌∷◌, [], ℕ, Bool, false, get_or, length, nat_eq, IfOk, OnOk};
ghost use Rattle.std.specs.List.{All, list_any};
ghost use Rattle.rc_code.specs.Image.{FieldsFit};
ghost use Rattle.rc_code.specs.Running.{function_at, reading_of};
ghost use Rattle.rc_code.specs.Soundness.{Sound};
ghost use Rattle.rc_claims.specs.declared.proofs.Frame.{Frame as AnyFrame};
ghost use Rattle.rc_claims.specs.Claims.{known_at, ProofsFit};
ghost use Rattle.rc_claims.specs.Counts.{frame_count};
ghost use Rattle.rc_sealed.specs.Carrying.{is_target};
ghost use Rattle.rc_sealed.specs.Claimed.{annotation_of};
ghost use Rattle.rc_sealed.specs.Faults.{NoneIsWide};
ghost use Rattle.rc_prove.specs.declared.start.Counts.{Counts as AnyCounts};
ghost use Rattle.rc_prove.specs.Family.{claimed, family_of};
ghost use Rattle.rc_prove.specs.Starting.{AreShaped, CountsFit};
ghost use Rattle.rc_seal.specs.Claiming.{family, AreCountsOf, AreFirstKnown, AreFramesAt, IsKnownOf, IsReady};

use rc_base::NoMemory;
use rc_claims::{Frame, Known, Proofs};
use rc_code::{Items, Parts};
use rc_fact_bits::{bits_of, frames_of};
use rc_facts::FactSet;
use rc_image_counts::function_of;
use rc_image_shapes::shape_of;
use rc_prove::{Claims, Counts};
use std::alloc::Global;

/// The sets of the functions of an image.
#[derive(Clone, Copy)]
pub(crate) struct Sets<'a> {
    pub(crate) alloc: Global,
    pub(crate) parts: &'a Parts,
    pub(crate) counts: &'a [Counts],
    pub(crate) claims: &'a Claims,
}

/// The first elements of a table, so many at most.
fn first(table: &[bool], count: usize) -> &[bool]
    ensures long { length result.now ≤ count }
    ensures same { (at : ℕ) → at < count → get_or result.now at false ≡ get_or table.now at false }
{
    if table.len() <= count {
        return table;
    }
    &table[..count]
}

/// The frames before the targets of a function.
fn frames_in(
    sets: &Sets<'_>,
    number: u32,
    locals: u32,
    frames: &[FactSet],
) -> Result<Items<Frame>, NoMemory>
    requires sets { IsReady sets.now }
    requires there { number < length sets.now.parts.now.functions }
    requires locals { locals ≡ frame_count (function_at (reading_of sets.now.parts.now) number) }
    requires frames { frames.now ≡ get_or (family sets.now).frames number [] }
    ensures { IfOk result (λ made. AreFramesAt sets.now.parts.now (family sets.now) number made) }
{
    let shape = shape_of(sets.alloc, sets.parts, number)?;
    let count = function_of(sets.parts, number).code.as_slice().len();
    let targets = first(shape.targets.as_slice(), count);
    let made = frames_of(sets.alloc, locals, frames, targets)?;
    Ok(Items::new(made))
}

/// What is claimed of a function.
fn known_of(sets: &Sets<'_>, number: u32) -> Result<Known, NoMemory>
    requires sets { IsReady sets.now }
    requires there { number < length sets.now.parts.now.functions }
    ensures { IfOk result (IsKnownOf sets.now.parts.now (family sets.now) number) }
{
    let at = number as usize;
    let counts = sets.counts[at];
    let entry = bits_of(sets.alloc, counts.copies, &sets.claims.entries[at])?;
    let exit = bits_of(sets.alloc, counts.answers, &sets.claims.exits[at])?;
    let frames = frames_in(
        sets,
        number,
        counts.locals,
        sets.claims.frames[at].as_slice(),
    )?;
    Ok(Known {
        entry,
        exit,
        frames,
    })
}

fn put(out: &mut Vec<Known>, known: Known) -> Result<(), NoMemory>
    ensures { OnOk result (out.new.items ≡ out.old.items ++ known ∷ []) }
{
    out.push(known)?;
    Ok(())
}

/// What is claimed of each function.
fn all_known(sets: &Sets<'_>) -> Result<Vec<Known>, NoMemory>
    requires { IsReady sets.now }
    ensures { IfOk result (λ all. AreFirstKnown sets.now.parts.now (family sets.now) (length sets.now.parts.now.functions) all.items) }
{
    let mut all = Vec::new(sets.alloc);
    for at in 0..sets.parts.functions.as_slice().len() {
        let known = known_of(sets, at as u32)?;
        put(&mut all, known)?;
    }
    Ok(all)
}

/// The proofs that the sets of the functions of an image are. The only error is want of memory.
pub(crate) fn proofs_of(
    alloc: Global,
    parts: &Parts,
    counts: &[Counts],
    claims: &Claims,
) -> Result<Proofs, NoMemory>
    requires fields { FieldsFit parts.now }
    requires sound { Sound parts.now }
    requires narrow { NoneIsWide parts.now }
    requires fit { All (λ (c : AnyCounts). CountsFit c) counts.now }
    requires counts { AreCountsOf parts.now counts.now }
    requires shaped { AreShaped counts.now (family_of claims.now.entries.items claims.now.exits.items claims.now.frames.items) }
    ensures fits { IfOk result (λ proofs. ProofsFit parts.now proofs) }
    ensures claims { IfOk result (λ proofs. annotation_of parts.now proofs ≡ claimed (reading_of parts.now) (family_of claims.now.entries.items claims.now.exits.items claims.now.frames.items)) }
    ensures frames { IfOk result (λ proofs. (g at : ℕ) → g < length parts.now.functions → list_any (λ (frame : AnyFrame). nat_eq frame.at at) (known_at proofs g).frames ≡ is_target (function_at (reading_of parts.now) g) at) }
{
    let sets = Sets {
        alloc,
        parts,
        counts,
        claims,
    };
    let all = all_known(&sets)?;
    Ok(Proofs {
        functions: Items::new(all),
    })
}
