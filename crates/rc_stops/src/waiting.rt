// Stops that wait to be looked at. The latest is taken first, and one may wait more than once.
ghost use Rattle.std.specs.Prelude.{◌≡◌, ◌<◌, ◌≤◌, ◌+◌, ◌++◌, ◌∷◌, [], ℕ, length, IsTrue, OnOk, MatchOption};
ghost use Rattle.rc_stops.specs.Waits.{is_among, AreBelow};

use rc_base::NoMemory;

fn put(waiting: &mut Vec<usize>, at: usize) -> Result<(), NoMemory>
    ensures { OnOk result (waiting.new.items ≡ waiting.old.items ++ at ∷ []) }
{
    waiting.push(at)?;
    Ok(())
}

/// Lets a stop wait. The only error is want of memory.
pub(crate) fn wake(waiting: &mut Vec<usize>, at: usize) -> Result<(), NoMemory>
    ensures woken { OnOk result (IsTrue (is_among waiting.new.items at)) }
    ensures kept { OnOk result ((k : ℕ) → IsTrue (is_among waiting.old.items k) → IsTrue (is_among waiting.new.items k)) }
    ensures below { OnOk result ((n : ℕ) → at < n → AreBelow n waiting.old.items → AreBelow n waiting.new.items) }
    ensures count { OnOk result (length waiting.new.items ≤ length waiting.old.items + 1) }
{
    put(waiting, at)?;
    Ok(())
}

/// Takes one that waits, if any.
pub(crate) fn take(waiting: &mut Vec<usize>) -> Option<usize>
    ensures { MatchOption result (length waiting.old.items ≡ 0) (λ at. waiting.old.items ≡ waiting.new.items ++ at ∷ []) }
{
    match waiting.pop() {
        None => None,
        Some(at) => Some(at),
    }
}
