// Tables of the targets of a function.
ghost use Rattle.std.specs.Prelude.{◌≡◌, ◌<◌, ◌≤◌, ◌+◌, ◌^◌, false, true, length, get_or, MatchOption};
ghost use Rattle.rc_code.specs.declared.image.Function.{Function as AnyFunction};
ghost use Rattle.rc_code.specs.Running.{Reading};
ghost use Rattle.rc_code.specs.Soundness.{FunctionIsSound};
ghost use Rattle.rc_claims.specs.Counts.{one_if, trues};
ghost use Rattle.rc_image_shapes.specs.Shapes.{IsShape};
ghost use Rattle.rc_prove_ways.specs.Ranks.{AreTargets};

use rc_image_shapes::Shape;

/// For each of so many instructions of a function whether a jump leads to it.
pub(crate) fn targets_of(shape: &Shape, count: usize) -> &[bool]
    ensures few { length result.now ≤ count }
    ensures targets { (image : Reading) (f : AnyFunction) → IsShape image f shape.now → FunctionIsSound true image f → count ≡ length f.code → AreTargets f result.now }
{
    let targets = shape.targets.as_slice();
    &targets[..targets.len().min(count)]
}

/// One more, if so.
fn count_on(count: usize, so: bool) -> usize
    requires { count < 2 ^ 32 }
    ensures { result ≡ count + one_if so }
{
    if so { count + 1 } else { count }
}

/// How many targets there are.
pub(crate) fn count_of(targets: &[bool]) -> usize
    requires { length targets.now < 2 ^ 32 }
    ensures { result ≡ trues targets.now (length targets.now) }
{
    let mut count = 0;
    for at in 0..targets.len() {
        let more = count_on(count, targets[at]);
        count = more;
    }
    count
}

/// The set of the first instruction, if that is a target: it is the first one of the function's.
pub(crate) fn first_of(targets: &[bool]) -> Option<u32>
    ensures { MatchOption result (get_or targets.now 0 false ≡ false) (λ r. (get_or targets.now 0 false ≡ true) × (r ≡ 0)) }
{
    match targets.get(0) {
        Some(true) => Some(0),
        _ => None,
    }
}
