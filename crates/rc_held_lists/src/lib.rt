//! That runs of region code hold what is listed. `specs/HeldLists` says what that means.
#![tactic(auto)]

ghost use Rattle.rc_held_lists.specs.HeldLists.{HeldAreListed, HeldAreLiveInTheSource};

use rc_core::liveness::liveness_is_a_path;

/// Wherever a run of region code comes to a deletion, or to a call of a function that deletes, the locals
/// whose values it holds there are those that the list of that point has (`listed`). In the region code of
/// a program whose parts fit together that point is one at which a node of the source deletes, and the
/// locals are those that are live behind that node by the source's paths, but for the one that it assigns
/// (`source`).
pub fn held_are_listed()
    ensures listed { HeldAreListed }
    ensures source { HeldAreLiveInTheSource }
{
    liveness_is_a_path();
}
