// How many variables the facts of a function's sets speak of.
ghost use Rattle.std.specs.Prelude.{◌≡◌};
ghost use Rattle.rc_claims.specs.Counts.{one_if, regional_result};
ghost use Rattle.rc_prove_routes.specs.Walking.{IsWalk};
ghost use Rattle.rc_prove_routes.specs.Routed.{IsCounted};

use crate::tables::count_of;
use crate::walk::Walk;
use rc_code::Storage;
use rc_image_counts::{function_of, is_regional};
use rc_prove::Counts;

/// 1 for a result that is a region or a pointer, and else 0.
fn regional(result_kind: Option<Storage>) -> u32
    ensures { result ≡ one_if (regional_result result_kind) }
{
    match result_kind {
        None => 0,
        Some(storage) => { if is_regional(storage) { 1 } else { 0 } }
    }
}

/// The counts of a function.
pub(crate) fn counts_of(walk: &Walk<'_>) -> Counts
    requires { IsWalk walk.now }
    ensures { IsCounted walk.now.site.parts.now walk.now.site.number result }
{
    let shape = walk.site.shape;
    let function = function_of(walk.site.parts, walk.site.number);
    Counts {
        copies: shape.copies,
        answers: shape.copies + regional(function.result),
        locals: shape.first,
        variables: shape.result + 2,
        targets: count_of(walk.targets),
    }
}
