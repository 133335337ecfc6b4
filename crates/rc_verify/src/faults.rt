// What is told where proofs aren't right.
ghost use Rattle.std.specs.Prelude.{◌≡◌, MatchOption};
ghost use Rattle.rc_annotations.specs.Annotations.{Annotation};
ghost use Rattle.rc_code.specs.declared.image.Parts.{Parts as AnyParts};
ghost use Rattle.rc_pinning.specs.Unpinned.{TellsUnpinned};
ghost use Rattle.rc_verify.specs.Firsts.{AllRight, FaultIn, TellsUnproved};

use rc_sealed::ProofFault;

/// What is told of a function, by its first instruction that isn't proved and its first that doesn't pin
/// what it has to: the first of these, and of one instruction that it isn't proved.
pub(crate) fn earlier(
    number: u32,
    unproved: Option<u32>,
    unpinned: Option<u32>,
) -> Option<ProofFault>
    ensures { (parts : AnyParts) (proofs : Annotation) → TellsUnproved parts proofs number unproved → TellsUnpinned parts number unpinned
        → MatchOption result (AllRight parts proofs number) (FaultIn parts proofs number) }
{
    match (unproved, unpinned) {
        (None, None) => None,
        (Some(at), None) => Some(ProofFault::Facts(number, at)),
        (None, Some(at)) => Some(ProofFault::Pins(number, at)),
        (Some(facts), Some(pins)) => {
            if facts <= pins {
                Some(ProofFault::Facts(number, facts))
            } else {
                Some(ProofFault::Pins(number, pins))
            }
        }
    }
}
