//! Images that carry proofs: that they are run or refused, and sealed or refused, in one way. `specs/Laws`
//! says what of.
#![tactic(auto)]

ghost use Rattle.rc_sealings.specs.Laws.{NoneWhereProved, NoneWhereSealed, OneFault, OnePinFault, OneSeal};

/// Where proofs of an image fail, they fail first in one place and for one reason (`one`), and where they
/// prove it they don't fail (`none`). Want of memory aside.
pub fn proofs_fail_in_one_place()
    ensures one { OneFault }
    ensures none { NoneWhereProved }
{}

/// An image is sealed in one way: as one image with one list of proofs (`one`), or is refused for one
/// reason (`refused`), and never both (`none`). Want of memory aside.
pub fn an_image_is_sealed_in_one_way()
    ensures one { OneSeal }
    ensures refused { OnePinFault }
    ensures none { NoneWhereSealed }
{}
