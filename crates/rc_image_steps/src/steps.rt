// What an instruction is to a pass.
ghost use Rattle.std.specs.Prelude.{◌≡◌, ◌<◌, length, List, IfOk};
ghost use Rattle.rc_facts.specs.Facts.{Known as AnyKnown};
ghost use Rattle.rc_claims.specs.Claims.{ProofsFit};
ghost use Rattle.rc_sealed.specs.ImageVariables.{scratch, variables};
ghost use Rattle.rc_sealed.specs.Carrying.{height as height_at};
ghost use Rattle.rc_sealed.specs.Claimed.{annotation_of};
ghost use Rattle.rc_carrying.specs.Passing.{Fits, StandsFor};
ghost use Rattle.rc_image_steps.specs.Sites.{function_in, image_of, AreExits, IsSite};

use crate::asking::{asked_before, asked_behind};
use crate::framing::frame_of;
use crate::site::{Site, View, view_at};
use rc_base::NoMemory;
use rc_carrying::Step;
use rc_claims::Proofs;
use std::alloc::Global;

/// What an instruction is to a pass, before which so many operands stand.
///
/// # Errors
///
/// Out of memory.
pub fn step_of(
    alloc: Global,
    site: &Site<'_>,
    proofs: &Proofs,
    at: u32,
    height: usize,
) -> Result<Step, NoMemory>
    requires site { IsSite site.now }
    requires claims { ProofsFit site.now.parts.now proofs.now }
    requires there { at < length (function_in site.now).code }
    requires height { height ≡ height_at (image_of site.now) (function_in site.now) at }
    ensures stands { IfOk result (λ step. StandsFor (image_of site.now) (annotation_of site.now.parts.now proofs.now) site.now.number at step) }
    ensures fits { IfOk result (λ step. (exits : List AnyKnown) → AreExits site.now.parts.now exits → Fits (variables (image_of site.now) (function_in site.now)) (scratch (image_of site.now) (function_in site.now)) exits step) }
{
    let View { effect, span } = view_at(alloc, site, at, height)?;
    let before = asked_before(alloc, site, proofs, at, &effect)?;
    let behind = asked_behind(alloc, site, proofs, at)?;
    let frame = frame_of(alloc, site, proofs, at + 1)?;
    Ok(Step {
        effect,
        low: span.low,
        top: span.top,
        before,
        behind,
        frame,
    })
}
