// How far indices lead.
ghost use Rattle.std.specs.Prelude.{◌≡◌, ◌<◌, ◌^◌, nat_lt};
ghost use Rattle.rc_code.specs.Image.{is_apart, is_nested};
ghost use Rattle.rc_code.specs.Reached.{span};

use rc_code::Index;

/// Whether the stride is at least the next index's length times its stride.
fn is_apart(index: Index, after: &[Index]) -> bool
    ensures { result ≡ is_apart index after.now }
{
    match after {
        [] => true,
        [next, ..] => { u64::from(index.stride) >= u64::from(next.length) * u64::from(next.stride) }
    }
}

/// Whether each stride is at least the next index's length times its stride.
pub fn is_nested(indices: &[Index]) -> bool
    ensures { result ≡ is_nested indices.now }
{
    let mut rest = indices;
    while let [index, after @ ..] = rest {
        if !is_apart(*index, after) {
            return false;
        }
        rest = after;
    }
    true
}

/// Whether the greatest cell that is reached is among so many, from the first on.
#[tactic(auto, using(crate::proofs::Rules::less_room, crate::proofs::Rules::no_room))]
pub fn is_inside(indices: &[Index], cells: usize) -> bool
    ensures { result ≡ nat_lt (span indices.now) cells }
{
    let mut room = cells as u64;
    let mut rest = indices;
    while let [index, after @ ..] = rest {
        let step = u64::from(index.length.saturating_sub(1)) * u64::from(index.stride);
        if step >= room {
            return false;
        }
        room -= step;
        rest = after;
    }
    room > 0
}

/// How far the greatest cell that is reached is from the first.
pub(crate) fn span_of(indices: &[Index]) -> usize
    requires { span indices.now < 2 ^ 64 }
    ensures { result ≡ span indices.now }
{
    let mut span = 0;
    let mut rest = indices;
    while let [index, after @ ..] = rest {
        span += index.length.saturating_sub(1) as usize * index.stride as usize;
        rest = after;
    }
    span
}
