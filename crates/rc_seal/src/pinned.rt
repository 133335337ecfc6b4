// Whether an image may be sealed.
ghost use Rattle.std.specs.Prelude.{IfOk, MatchOption};
ghost use Rattle.rc_code.specs.Image.{FieldsFit};
ghost use Rattle.rc_code.specs.Soundness.{Sound};
ghost use Rattle.rc_deleters.specs.Calls.{TellsDeleters};
ghost use Rattle.rc_greatest_proofs.specs.Sealed.{IsPinFault};
ghost use Rattle.rc_sealed.specs.Faults.{NoneIsWide};
ghost use Rattle.rc_seal.specs.Finding.{AllPinned, MayBeSealed};

use crate::numbers::{functions_in, number_of};
use rc_base::NoMemory;
use rc_code::Parts;
use rc_deleters::{Deleters, deleters_of};
use rc_image_shapes::first_wide;
use rc_pinning::first_unpinned;
use rc_sealed::ProofFault;
use std::alloc::Global;

/// The first instruction of all that doesn't pin what it has to.
fn pin_fault(
    alloc: Global,
    parts: &Parts,
    deleters: &Deleters,
) -> Result<Option<ProofFault>, NoMemory>
    requires fields { FieldsFit parts.now }
    requires sound { Sound parts.now }
    requires narrow { NoneIsWide parts.now }
    requires deleters { TellsDeleters parts.now deleters.now }
    ensures { IfOk result (λ found. MatchOption found (AllPinned parts.now) (IsPinFault parts.now)) }
{
    for at in 0..functions_in(parts) {
        let number = number_of(at)?;
        if let Some(instruction) = first_unpinned(alloc, parts, number, deleters)? {
            return Ok(Some(ProofFault::Pins(number, instruction)));
        }
    }
    Ok(None)
}

/// Why an image isn't sealed, if it isn't: that it has a wide function is told before all else.
pub(crate) fn fault_of(alloc: Global, parts: &Parts) -> Result<Option<ProofFault>, NoMemory>
    requires fields { FieldsFit parts.now }
    requires sound { Sound parts.now }
    ensures { IfOk result (λ found. MatchOption found (MayBeSealed parts.now) (IsPinFault parts.now)) }
{
    if let Some(number) = first_wide(parts) {
        return Ok(Some(ProofFault::Wide(number)));
    }
    let deleters = deleters_of(alloc, parts)?;
    pin_fault(alloc, parts, &deleters)
}
