// A number that is spent.
ghost use Rattle.std.specs.Prelude.{◌≡◌, ◌<◌, ◌+◌, MatchOption};

/// What is left, and None where it isn't enough.
pub(crate) fn spend(left: u32, number: u32) -> Option<u32>
    ensures { MatchOption result (left < number) (λ r. r + number ≡ left) }
{
    left.checked_sub(number)
}

/// What is left behind a point for each of these cells, and None where it isn't enough.
pub(crate) fn spend_cells(left: u32, cells: u64) -> Option<u32>
    ensures { MatchOption result (left < cells) (λ r. r + cells ≡ left) }
{
    if cells > left as u64 {
        return None;
    }
    Some(left - cells as u32)
}
